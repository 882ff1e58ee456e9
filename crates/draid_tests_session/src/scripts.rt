ghost use Rattle.std.specs.Prelude.{◌≤◌, length};
ghost use Rattle.draid_agent.specs.Policy.{Names};
ghost use Rattle.draid_choose.specs.Rooms.{IsChooser, Picks, most_rooms};

use draid_agent::{Policy, first_free};
use draid_choose::{Chooser, first_fit};
use draid_lines::{MemorySink, MemorySource};
use draid_names::Room;
use draid_run::{NoSections, Status, run};
use draid_shelf::MemoryShelf;
use std::alloc::{AllocError, Global};
use std::thread::Threads;

/// The words of a command line, with a blank between each two.
pub fn words_of(alloc: Global, line: &str) -> Result<Vec<String>, AllocError> {
    let mut words = Vec::new(alloc);
    for word in line.split(' ') {
        words.push(String::from_str(alloc, word)?)?;
    }
    Ok(words)
}

/// Runs a script on a shelf, and gives the status; none where there is no memory for the words.
pub fn run_chosen<R: AllocGlobal + Threads + Sync, F: Fn(&[Room]) -> Option<u32> + Sync>(
    rt: &R,
    line: &str,
    shelf: &mut MemoryShelf,
    source: &mut MemorySource,
    sink: &mut MemorySink,
    chooser: &Chooser<F>,
) -> Option<Status>
    requires { IsChooser F.Fn chooser.now }
{
    let policy = Policy::new(
        |slot: u32, logged: u64, free: &[u32]| -> Option<u32>
            ensures { Names free.now result }
        { first_free(slot, logged, free) },
    );
    match words_of(rt.alloc(), line) {
        Ok(words) => Some(run(
            rt,
            &NoSections,
            &words,
            shelf,
            source,
            sink,
            chooser,
            &policy,
        )),
        Err(_) => None,
    }
}

/// The same, where the first metaslab that has room for a block takes it.
fn run_first<R: AllocGlobal + Threads + Sync>(
    rt: &R,
    line: &str,
    shelf: &mut MemoryShelf,
    source: &mut MemorySource,
    sink: &mut MemorySink,
) -> Option<Status> {
    let chooser = Chooser::new(
        |rooms: &[Room]| -> Option<u32>
            requires { length rooms.now ≤ most_rooms }
            ensures { Picks rooms.now result }
        { first_fit(rooms) },
    );
    run_chosen(rt, line, shelf, source, sink, &chooser)
}

/// The source of a script, of which the calls with these numbers fail.
pub fn source_of(
    alloc: Global,
    script: &[u8],
    failing: &[u64],
) -> Result<MemorySource, AllocError> {
    let script = Vec::from_slice(alloc, script)?;
    Ok(MemorySource::new(script, Vec::from_slice(alloc, failing)?))
}

/// Runs a script on a shelf so, where these calls of its source fail; none where there is no memory for the script.
pub fn run_script<R: AllocGlobal + Threads + Sync>(
    rt: &R,
    line: &str,
    script: &[u8],
    failing: &[u64],
    shelf: &mut MemoryShelf,
    sink: &mut MemorySink,
) -> Option<Status> {
    match source_of(rt.alloc(), script, failing) {
        Ok(mut source) => run_first(rt, line, shelf, &mut source, sink),
        Err(_) => None,
    }
}
