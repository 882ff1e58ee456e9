ghost use Rattle.std.specs.Prelude.{◌≡◌, ◌≤◌, ℕ, List, Option, Some};
ghost use Rattle.std.specs.Fn.{FnReturnsAt};
ghost use Rattle.draid_agent.specs.Policy.{IsPolicy, PolicyReturns};
ghost use Rattle.draid_choose.specs.Rooms.{IsChooser};
ghost use Rattle.draid_names.specs.Faults.{Rose};
ghost use Rattle.draid_session.specs.Choices.{choices_with};
ghost use Rattle.draid_pool.specs.Shelves.{on_shelf};
ghost use Rattle.draid_words.specs.Mode.{OfWorkload, asked};
ghost use Rattle.draid_run.specs.Script.{PrintsWorkload, RunIs, input_of};
ghost use Rattle.draid_run.specs.Shelves.{DeviceFailed};

use crate::sections::Sections;
use crate::top::{end_run, put_last, run_session};
use draid_agent::Policy;
use draid_choose::Chooser;
use draid_exits::Status;
use draid_gen::workload;
use draid_lines::{MemorySink, Sink, Text};
use draid_names::{NoMemory, Room};
use draid_shelf::Shelf;
use draid_summary::summary;
use std::alloc::{AllocError, Global};
use std::thread::Threads;

/// Prints the summary of what was replied to the workload of a number, where its session ended with the script; else
/// the last line of the session's status.
fn end_workload<K: Sink>(
    alloc: Global,
    sink: &mut K,
    number: u64,
    replied: &[u8],
    ended: Status,
) -> Status
    ensures prints { PrintsWorkload ended number replied.now result (K.held sink.old) (K.held sink.new) }
    ensures later { K.faults sink.old ≤ K.faults sink.new }
    ensures cause { result ≡ Status.SinkFault → Rose (K.faults sink.old) (K.faults sink.new) }
    ensures usage { result ≡ Status.Usage → ended ≡ Status.Usage }
    ensures source { result ≡ Status.SourceFault → ended ≡ Status.SourceFault }
    ensures shelf { result ≡ Status.ShelfFault → ended ≡ Status.ShelfFault }
{
    match ended {
        Status::Done => match summary(alloc, number, replied) {
            Ok(line) => put_last(sink, line.as_bytes(), Status::Done),
            Err(AllocError) => end_run(alloc, sink, Status::NoMemory),
        },
        // A sink in memory fails for want of memory.
        Status::SinkFault => end_run(alloc, sink, Status::NoMemory),
        _ => end_run(alloc, sink, ended),
    }
}

/// Runs the workload of a number on the pool of `shelf`: a session on its script, of whose replies `sink` gets the
/// summary.
pub(crate) fn run_workload<
    H: Shelf,
    K: Sink,
    F: Fn(&[Room]) -> Option<u32>,
    P: Fn(u32, u64, &[u32]) -> Option<u32>,
    G: Sections<H::R, H::A>,
    A: AllocGlobal + Threads + Sync,
>(
    rt: &A,
    sections: &G,
    number: u64,
    shelf: &mut H,
    sink: &mut K,
    chooser: &Chooser<F>,
    policy: &Policy<P>,
) -> Status
    requires chooser { IsChooser F.Fn chooser.now }
    requires sections { G.ready sections.now (FnReturnsAt F.Fn chooser.now) }
    requires policy { IsPolicy P.Fn policy.now }
    ensures run { (words : List (List ℕ)) (given : Option (List ℕ)) → asked words ≡ Some (OfWorkload number)
        → RunIs H.R.Rack H.A.Area (choices_with (FnReturnsAt F.Fn chooser.now) (PolicyReturns P.Fn policy.now)) words result given (K.held sink.old) (K.held sink.new) (on_shelf H.Shelf shelf.old) (on_shelf H.Shelf shelf.new) }
    ensures sink_later { K.faults sink.old ≤ K.faults sink.new }
    ensures shelf_later { H.faults shelf.old ≤ H.faults shelf.new }
    ensures no_source_fault { result ≡ Status.SourceFault → ⊥ }
    ensures sink_fault { result ≡ Status.SinkFault → Rose (K.faults sink.old) (K.faults sink.new) }
    ensures shelf_fault { (words : List (List ℕ)) (given : Option (List ℕ)) → asked words ≡ Some (OfWorkload number)
        → result ≡ Status.ShelfFault → DeviceFailed (input_of words given) (on_shelf H.Shelf shelf.old) (on_shelf H.Shelf shelf.new) }
{
    let alloc = rt.alloc();
    let script = match workload(alloc, number) {
        Ok(script) => script,
        Err(NoMemory) => return end_run(alloc, sink, Status::NoMemory),
    };
    let mut source = Text { left: &script };
    let mut replies = MemorySink::new(alloc, Vec::new(alloc));
    let ended = run_session(
        rt,
        sections,
        shelf,
        &mut source,
        &mut replies,
        chooser,
        policy,
    );
    end_workload(alloc, sink, number, replies.held(), ended)
}
