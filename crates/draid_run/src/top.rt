ghost use Rattle.std.specs.Prelude.{◌≡◌, ◌≤◌, ◌⊎◌, ⊤, ℕ, List, MatchOption, map, string_bytes};
ghost use Rattle.std.specs.Fn.{FnReturnsAt};
ghost use Rattle.std.specs.Io.KnownBytes.{IsAtEnd};
ghost use Rattle.draid_agent.specs.Policy.{IsPolicy, PolicyReturns};
ghost use Rattle.draid_choose.specs.Rooms.{IsChooser};
ghost use Rattle.draid_names.specs.Faults.{Rose};
ghost use Rattle.draid_session.specs.Choices.{choices_with};
ghost use Rattle.draid_session.specs.Session.{Desk};
ghost use Rattle.draid_run.specs.Desks.{IsDesk, IsPool, LeavesDesk};
ghost use Rattle.draid_run.specs.Script.{EndsWithLine, IsSession, Prints, RunIs, SessionIs, input_of};
ghost use Rattle.draid_pool.specs.Shelves.{OnShelf, on_shelf};
ghost use Rattle.draid_run.specs.Shelves.{DeviceFailed};

use crate::sections::Sections;
use crate::serve::serve;
use crate::workloads::run_workload;
use draid_agent::Policy;
use draid_choose::Chooser;
use draid_exits::{Status, fixed_line, numbered_line};
use draid_lines::{Sink, Source};
use draid_names::Room;
use draid_pool::{Pool, close};
use draid_shelf::Shelf;
use draid_words::{Mode, WordsFault, read_words};
use std::alloc::Global;
use std::thread::Threads;

/// Puts the last line, where there is one.
pub(crate) fn put_last<K: Sink>(sink: &mut K, line: &[u8], ended: Status) -> Status
    ensures line { Prints result ended line.now (K.held sink.old) (K.held sink.new) }
    ensures later { K.faults sink.old ≤ K.faults sink.new }
    ensures cause { result ≡ Status.SinkFault → (ended ≡ Status.SinkFault) ⊎ Rose (K.faults sink.old) (K.faults sink.new) }
{
    if line.is_empty() {
        return ended;
    }
    match sink.put(line) {
        Ok(()) => ended,
        Err(_) => Status::SinkFault,
    }
}

/// Prints the line of a status, and gives the status that the run then has.
pub fn end_run<K: Sink>(alloc: Global, sink: &mut K, ended: Status) -> Status
    ensures line { EndsWithLine ended result (K.held sink.old) (K.held sink.new) }
    ensures later { K.faults sink.old ≤ K.faults sink.new }
    ensures cause { result ≡ Status.SinkFault → (ended ≡ Status.SinkFault) ⊎ Rose (K.faults sink.old) (K.faults sink.new) }
    ensures done { result ≡ Status.Done → ended ≡ Status.Done }
    ensures usage { result ≡ Status.Usage → ended ≡ Status.Usage }
    ensures source { result ≡ Status.SourceFault → ended ≡ Status.SourceFault }
    ensures shelf { result ≡ Status.ShelfFault → ended ≡ Status.ShelfFault }
{
    match numbered_line(alloc, ended) {
        Some(Ok(line)) => put_last(sink, line.as_bytes(), ended),
        None => put_last(sink, fixed_line(ended).as_bytes(), ended),
        Some(Err(_)) => put_last(
            sink,
            fixed_line(Status::NoMemory).as_bytes(),
            Status::NoMemory,
        ),
    }
}

/// Gives the devices of an open pool back to the shelf.
fn give_back<H: Shelf>(shelf: &mut H, pool: Option<Pool<H::R, H::A>>)
    requires desk { (x : Desk) × IsPool H.R.Rack H.A.Area pool x }
    ensures leaves { (entry : OnShelf) (x : Desk) → IsDesk H.R.Rack H.A.Area entry (on_shelf H.Shelf shelf.old) pool x
        → LeavesDesk H.R.Rack H.A.Area entry (on_shelf H.Shelf shelf.old) (on_shelf H.Shelf shelf.new) pool x }
    ensures faults { H.faults shelf.new ≡ H.faults shelf.old }
{
    if let Some(pool) = pool {
        close(pool, shelf, false);
    }
}

/// Runs the script of `source` on the pool of `shelf`, with its replies and the last line to `sink`.
pub(crate) fn run_session<
    H: Shelf,
    S: Source,
    K: Sink,
    F: Fn(&[Room]) -> Option<u32>,
    P: Fn(u32, u64, &[u32]) -> Option<u32>,
    G: Sections<H::R, H::A>,
    A: AllocGlobal + Threads + Sync,
>(
    rt: &A,
    sections: &G,
    shelf: &mut H,
    source: &mut S,
    sink: &mut K,
    chooser: &Chooser<F>,
    policy: &Policy<P>,
) -> Status
    requires chooser { IsChooser F.Fn chooser.now }
    requires sections { G.ready sections.now (FnReturnsAt F.Fn chooser.now) }
    requires policy { IsPolicy P.Fn policy.now }
    ensures run { (words : List (List ℕ)) → IsSession words
        → SessionIs H.R.Rack H.A.Area (choices_with (FnReturnsAt F.Fn chooser.now) (PolicyReturns P.Fn policy.now)) words result (S.left source.old) (K.held sink.old) (K.held sink.new) (on_shelf H.Shelf shelf.old) (on_shelf H.Shelf shelf.new) }
    ensures done { result ≡ Status.Done → IsAtEnd (S.left source.new) }
    ensures source_later { S.faults source.old ≤ S.faults source.new }
    ensures sink_later { K.faults sink.old ≤ K.faults sink.new }
    ensures shelf_later { H.faults shelf.old ≤ H.faults shelf.new }
    ensures source_fault { result ≡ Status.SourceFault → Rose (S.faults source.old) (S.faults source.new) }
    ensures sink_fault { result ≡ Status.SinkFault → Rose (K.faults sink.old) (K.faults sink.new) }
    ensures shelf_fault { result ≡ Status.ShelfFault → DeviceFailed (S.left source.old) (on_shelf H.Shelf shelf.old) (on_shelf H.Shelf shelf.new) }
{
    let alloc = rt.alloc();
    let mut pool = None;
    let ended = serve(
        rt, alloc, sections, shelf, &mut pool, chooser, policy, source, sink,
    );
    give_back(shelf, pool);
    end_run(alloc, sink, ended)
}

/// Does what the words of the command line behind the program's name ask for, on the pool of `shelf`: a session on the
/// script of `source`, with its replies to `sink`, or one on that of a workload, of which the sink gets the summary. The
/// chooser names the metaslab that a new block goes to, and the policy the spare that a slot gets from the repair agent.
/// The lanes of sections are run by `sections`.
pub fn run<
    H: Shelf,
    S: Source,
    K: Sink,
    F: Fn(&[Room]) -> Option<u32>,
    P: Fn(u32, u64, &[u32]) -> Option<u32>,
    G: Sections<H::R, H::A>,
    A: AllocGlobal + Threads + Sync,
>(
    rt: &A,
    sections: &G,
    words: &[String],
    shelf: &mut H,
    source: &mut S,
    sink: &mut K,
    chooser: &Chooser<F>,
    policy: &Policy<P>,
) -> Status
    requires chooser { IsChooser F.Fn chooser.now }
    requires sections { G.ready sections.now (FnReturnsAt F.Fn chooser.now) }
    requires policy { IsPolicy P.Fn policy.now }
    ensures run { RunIs H.R.Rack H.A.Area (choices_with (FnReturnsAt F.Fn chooser.now) (PolicyReturns P.Fn policy.now)) (map string_bytes words.now) result (S.left source.old) (K.held sink.old) (K.held sink.new) (on_shelf H.Shelf shelf.old) (on_shelf H.Shelf shelf.new) }

    // A session that is done has read the source to its end, and a run whose words ask for none leaves it alone.
    ensures done { result ≡ Status.Done → IsSession (map string_bytes words.now) → IsAtEnd (S.left source.new) }
    ensures untouched { (IsSession (map string_bytes words.now) → ⊥) → source.new ≡ source.old }

    // What has failed stays counted.
    ensures source_later { S.faults source.old ≤ S.faults source.new }
    ensures sink_later { K.faults sink.old ≤ K.faults sink.new }
    ensures shelf_later { H.faults shelf.old ≤ H.faults shelf.new }

    // The devices are to blame only where they failed in this run.
    ensures source_fault { result ≡ Status.SourceFault → Rose (S.faults source.old) (S.faults source.new) }
    ensures sink_fault { result ≡ Status.SinkFault → Rose (K.faults sink.old) (K.faults sink.new) }
    ensures shelf_fault { result ≡ Status.ShelfFault → DeviceFailed (input_of (map string_bytes words.now) (S.left source.old)) (on_shelf H.Shelf shelf.old) (on_shelf H.Shelf shelf.new) }
{
    let alloc = rt.alloc();
    match read_words(alloc, words) {
        Ok(Mode::Session { .. }) => {
            run_session(rt, sections, shelf, source, sink, chooser, policy)
        }
        Ok(Mode::Workload { number }) => {
            run_workload(rt, sections, number, shelf, sink, chooser, policy)
        }
        Err(WordsFault::Usage) => end_run(alloc, sink, Status::Usage),
        Err(WordsFault::NoMemory) => end_run(alloc, sink, Status::NoMemory),
    }
}
