//! Runs of the program: a session in memory or in a folder, or a workload in memory.
ghost use Rattle.std.specs.Prelude.{◌≡◌, ◌⊎◌, ℕ, List, Vec, IfErr, IfOk, None, Err, false, map, string_bytes};
ghost use Rattle.std.specs.Fn.{FnReturnsAt};
ghost use Rattle.std.specs.Io.KnownBytes.{IsAtEnd};
ghost use Rattle.std.specs.Process.{exit_status};
ghost use Rattle.draid_agent.specs.Policy.{IsPolicy, PolicyReturns};
ghost use Rattle.draid_choose.specs.Rooms.{IsChooser};
ghost use Rattle.draid_faults.specs.declared.crash.CrashRule.{CrashRule};
ghost use Rattle.draid_files.specs.Folders.{path_of};
ghost use Rattle.draid_shelf.specs.Failing.{is_planned, lists_of, no_lists, rule_of};
ghost use Rattle.draid_shelf.specs.Memory.{HoldsNothing};
ghost use Rattle.draid_uber.specs.Uber.{point_of};
ghost use Rattle.draid_session.specs.Choices.{choices_by, choices_with};
ghost use Rattle.draid_pool.specs.Shelves.{on_shelf};
ghost use Rattle.draid_pool.specs.Whole.{IsWhole};
ghost use Rattle.draid_clashes.specs.Lanes.{lanes_in};
ghost use Rattle.draid_run.specs.Script.{IsSession};
ghost use Rattle.draid_run.specs.Sections.{MayRunLanes, SectionMet};
ghost use Rattle.draid_program.specs.Program.{EndsBy, EndsByBook, EndsByRun, NamesFolder, unread};

use crate::lanes::run_lanes;
use draid_agent::Policy;
use draid_area::Area;
use draid_choose::Chooser;
use draid_files::{FileArea, FileRack, FileShelf};
use draid_lines::{Sink, Source};
use draid_names::{NoMemory, Room};
use draid_pool::Pool;
use draid_rack::Rack;
use draid_run::{LaneReplies, SectionsBy, Status, end_run, run};
use draid_script::Line;
use draid_shelf::{CrashRule, MemoryShelf, Shelf};
use draid_words::{Mode, WordsFault, read_words};
use std::alloc::Global;
use std::process::ExitCode;
use std::sync::Wait;
use std::thread::Threads;

/// Prints the last line of a status, and exits with it.
fn end_by<K: Sink>(alloc: Global, sink: &mut K, ended: Status) -> ExitCode
    ensures line { EndsBy ended result (K.held sink.old) (K.held sink.new) }
    ensures done { exit_status result ≡ 0 → ended ≡ Status.Done }
{
    let status = end_run(alloc, sink, ended);
    ExitCode::from(status.code())
}

/// The status of words that can't be read.
fn unread_status(fault: WordsFault) -> Status
    ensures { result ≡ unread fault }
{
    match fault {
        WordsFault::NoMemory => Status::NoMemory,
        WordsFault::Usage => Status::Usage,
    }
}

/// Runs the script of the source for these words, and exits with the status of the run.
fn run_on<
    H: Shelf,
    S: Source,
    K: Sink,
    F: Fn(&[Room]) -> Option<u32> + Sync,
    P: Fn(u32, u64, &[u32]) -> Option<u32>,
    A: AllocGlobal + Threads + Wait + Sync,
>(
    rt: &A,
    words: &[String],
    shelf: &mut H,
    source: &mut S,
    sink: &mut K,
    chooser: &Chooser<F>,
    policy: &Policy<P>,
) -> ExitCode
    requires chooser { IsChooser F.Fn chooser.now }
    requires policy { IsPolicy P.Fn policy.now }
    ensures run { EndsByRun H.R.Rack H.A.Area (choices_with (FnReturnsAt F.Fn chooser.now) (PolicyReturns P.Fn policy.now)) (map string_bytes words.now) result (S.left source.old) (K.held sink.old) (K.held sink.new) (on_shelf H.Shelf shelf.old) (on_shelf H.Shelf shelf.new) }
    ensures done { exit_status result ≡ 0 → IsSession (map string_bytes words.now) → IsAtEnd (S.left source.new) }
    ensures untouched { (IsSession (map string_bytes words.now) → ⊥) → source.new ≡ source.old }
{
    let alloc = rt.alloc();
    let sections = SectionsBy {
        run: |pool: Pool<H::R, H::A>, lanes: Vec<Vec<Line>>| -> (
            Pool<H::R, H::A>,
            Result<Vec<LaneReplies>, NoMemory>,
        )
            requires chooser { IsChooser F.Fn chooser.now }
            requires whole { IsWhole H.R.Rack H.A.Area pool }
            requires lanes { MayRunLanes (lanes_in lanes.items) }
            requires point { (point_of pool.uber).group ≡ None }
            ensures { SectionMet H.R.Rack H.A.Area (choices_by (FnReturnsAt F.Fn chooser.entry.now)) (lanes_in lanes.items) pool result.0 result.1 }
        { run_lanes(rt, alloc, pool, chooser, lanes) },
    };
    let status = run(rt, &sections, words, shelf, source, sink, chooser, policy);
    ExitCode::from(status.code())
}

/// The shelf of a run in memory: an empty one, of which no call fails.
fn new_shelf(alloc: Global) -> MemoryShelf
    ensures nothing { HoldsNothing result.devices }
    ensures rule { rule_of result ≡ CrashRule.Torn }
    ensures lists { lists_of result ≡ no_lists }
    ensures fuse { is_planned result ≡ false }
{
    MemoryShelf::new(alloc, CrashRule::Torn)
}

/// Runs the script of the source for these words over a new shelf in memory, and exits with the status of the run.
fn run_in_memory<
    S: Source,
    K: Sink,
    F: Fn(&[Room]) -> Option<u32> + Sync,
    P: Fn(u32, u64, &[u32]) -> Option<u32>,
    A: AllocGlobal + Threads + Wait + Sync,
>(
    rt: &A,
    words: &[String],
    source: &mut S,
    sink: &mut K,
    chooser: &Chooser<F>,
    policy: &Policy<P>,
) -> ExitCode
    requires chooser { IsChooser F.Fn chooser.now }
    requires policy { IsPolicy P.Fn policy.now }
    ensures book { EndsByBook (map string_bytes words.now) result (S.left source.old) (K.held sink.old) (K.held sink.new) }
    ensures done { exit_status result ≡ 0 → IsSession (map string_bytes words.now) → IsAtEnd (S.left source.new) }
    ensures untouched { (IsSession (map string_bytes words.now) → ⊥) → source.new ≡ source.old }
{
    let mut shelf = new_shelf(rt.alloc());
    run_on(rt, words, &mut shelf, source, sink, chooser, policy)
}

/// Runs the script of the source for these words over the folder of this name, and exits with the status of the run.
fn run_in_folder<
    S: Source,
    K: Sink,
    F: Fn(&[Room]) -> Option<u32> + Sync,
    P: Fn(u32, u64, &[u32]) -> Option<u32>,
    A: AllocGlobal + Threads + Wait + Sync,
>(
    files: &HostRuntime,
    rt: &A,
    words: &[String],
    path: String,
    source: &mut S,
    sink: &mut K,
    chooser: &Chooser<F>,
    policy: &Policy<P>,
) -> ExitCode
    requires chooser { IsChooser F.Fn chooser.now }
    requires policy { IsPolicy P.Fn policy.now }
    ensures run { (entry now : FileShelf) × (path_of entry ≡ string_bytes path)
        × EndsByRun ⟦<FileRack as Rack>⟧ ⟦<FileArea as Area>⟧ (choices_with (FnReturnsAt F.Fn chooser.now) (PolicyReturns P.Fn policy.now)) (map string_bytes words.now) result (S.left source.old) (K.held sink.old) (K.held sink.new) (on_shelf ⟦<FileShelf as Shelf>⟧ entry) (on_shelf ⟦<FileShelf as Shelf>⟧ now) }
    ensures done { exit_status result ≡ 0 → IsSession (map string_bytes words.now) → IsAtEnd (S.left source.new) }
{
    let mut shelf = FileShelf::new(files, path);
    run_on(rt, words, &mut shelf, source, sink, chooser, policy)
}

/// Runs the script of the source as the words ask for it, in memory or in a folder. Where there is no memory to read
/// them, it says so.
fn run_words<
    S: Source,
    K: Sink,
    F: Fn(&[Room]) -> Option<u32> + Sync,
    P: Fn(u32, u64, &[u32]) -> Option<u32>,
    A: AllocGlobal + Threads + Wait + Sync,
>(
    files: &HostRuntime,
    rt: &A,
    words: &[String],
    source: &mut S,
    sink: &mut K,
    chooser: &Chooser<F>,
    policy: &Policy<P>,
) -> ExitCode
    requires chooser { IsChooser F.Fn chooser.now }
    requires policy { IsPolicy P.Fn policy.now }
    ensures memory { ((path : List ℕ) → NamesFolder (map string_bytes words.now) path → ⊥)
        → EndsByBook (map string_bytes words.now) result (S.left source.old) (K.held sink.old) (K.held sink.new) }
    ensures folder { (path : List ℕ) → NamesFolder (map string_bytes words.now) path
        → ((entry now : FileShelf) × (path_of entry ≡ path)
        × EndsByRun ⟦<FileRack as Rack>⟧ ⟦<FileArea as Area>⟧ (choices_with (FnReturnsAt F.Fn chooser.now) (PolicyReturns P.Fn policy.now)) (map string_bytes words.now) result (S.left source.old) (K.held sink.old) (K.held sink.new) (on_shelf ⟦<FileShelf as Shelf>⟧ entry) (on_shelf ⟦<FileShelf as Shelf>⟧ now))
        ⊎ EndsBy Status.NoMemory result (K.held sink.old) (K.held sink.new) }
    ensures done { exit_status result ≡ 0 → IsSession (map string_bytes words.now) → IsAtEnd (S.left source.new) }
    ensures untouched { (IsSession (map string_bytes words.now) → ⊥) → source.new ≡ source.old }
{
    match read_words(rt.alloc(), words) {
        Ok(Mode::Session { dir: Some(path) }) => {
            run_in_folder(files, rt, words, path, source, sink, chooser, policy)
        }
        // Over a shelf in memory `run` might read the words, and run the session of a folder.
        Err(WordsFault::NoMemory) => end_by(rt.alloc(), sink, Status::NoMemory),
        _ => run_in_memory(rt, words, source, sink, chooser, policy),
    }
}

/// Runs the script of the source as the words behind the program's name ask for it. Where these can't be read, it says
/// why.
pub(crate) fn run_program<
    S: Source,
    K: Sink,
    F: Fn(&[Room]) -> Option<u32> + Sync,
    P: Fn(u32, u64, &[u32]) -> Option<u32>,
    A: AllocGlobal + Threads + Wait + Sync,
>(
    files: &HostRuntime,
    rt: &A,
    words: Result<Vec<String>, WordsFault>,
    source: &mut S,
    sink: &mut K,
    chooser: &Chooser<F>,
    policy: &Policy<P>,
) -> ExitCode
    requires chooser { IsChooser F.Fn chooser.now }
    requires policy { IsPolicy P.Fn policy.now }
    ensures unread { IfErr words (λ fault. EndsBy (unread fault) result (K.held sink.old) (K.held sink.new)) }
    ensures memory { IfOk words (λ words. ((path : List ℕ) → NamesFolder (map string_bytes words.items) path → ⊥)
        → EndsByBook (map string_bytes words.items) result (S.left source.old) (K.held sink.old) (K.held sink.new)) }
    ensures folder { IfOk words (λ words. (path : List ℕ) → NamesFolder (map string_bytes words.items) path
        → ((entry now : FileShelf) × (path_of entry ≡ path)
        × EndsByRun ⟦<FileRack as Rack>⟧ ⟦<FileArea as Area>⟧ (choices_with (FnReturnsAt F.Fn chooser.now) (PolicyReturns P.Fn policy.now)) (map string_bytes words.items) result (S.left source.old) (K.held sink.old) (K.held sink.new) (on_shelf ⟦<FileShelf as Shelf>⟧ entry) (on_shelf ⟦<FileShelf as Shelf>⟧ now))
        ⊎ EndsBy Status.NoMemory result (K.held sink.old) (K.held sink.new)) }
    ensures done { IfOk words (λ words. exit_status result ≡ 0 → IsSession (map string_bytes words.items) → IsAtEnd (S.left source.new)) }
    ensures untouched { IfOk words (λ words. (IsSession (map string_bytes words.items) → ⊥) → source.new ≡ source.old) }
{
    match words {
        Ok(words) => run_words(files, rt, &words, source, sink, chooser, policy),
        Err(fault) => end_by(rt.alloc(), sink, unread_status(fault)),
    }
}
