ghost use Rattle.std.specs.Prelude.{◌≡◌, ◌≤◌, length};
ghost use Rattle.draid_choose.specs.Rooms.{IsChooser, Picks, most_rooms};
ghost use Rattle.draid_pool.specs.Whole.{IsWhole};
ghost use Rattle.draid_tables.specs.Lists.{AreLaneLists};
ghost use Rattle.draid_tests_lanes.specs.Ready.{AreReady};

use crate::gates::{Stop, TableGate};
use crate::lists::lists_of;
use crate::ready::jobs_of;
use draid_area::Area;
use draid_choose::{Chooser, first_fit};
use draid_export::{reply_to_crash, reply_to_export};
use draid_import::import;
use draid_lines::MemorySink;
use draid_names::Room;
use draid_pool::Pool;
use draid_rack::Rack;
use draid_reply::{Reply, reply_text};
use draid_section::run_in_lanes;
use draid_shelf::MemoryShelf;
use draid_tests_session::run_script;
use draid_turn::Span;
use draid_works::LaneCommands;
use std::alloc::Global;
use std::mem;
use std::sync::Wait;
use std::thread::Threads;

/// What the replies of a lane are printed as.
pub fn text_of(alloc: Global, replies: &[Reply]) -> Option<Vec<u8>> {
    let mut text = Vec::new(alloc);
    for reply in replies {
        text.extend_from_slice(&reply_text(alloc, reply).ok()?)
            .ok()?;
    }
    Some(text)
}

/// The replies of each lane; none where one stopped.
fn replies_of<F: Fn(&[Room]) -> Option<u32>>(
    alloc: Global,
    jobs: Vec<LaneCommands<F>>,
) -> Option<Vec<Vec<Reply>>> {
    let mut lists = Vec::new(alloc);
    for mut job in jobs {
        if job.stopped {
            return None;
        }
        let replies = mem::replace(&mut job.replies, Vec::new(alloc));
        lists.push(replies).ok()?;
    }
    Some(lists)
}

/// A pool, and what lanes are asked of it.
pub struct Section {
    /// The script of the session that makes the pool.
    pub before: &'static str,
    /// Where lanes wait for each other.
    pub stops: &'static [Stop],
    /// The script of each lane.
    pub lanes: &'static [&'static str],
    /// Whether the pool is exported behind them, and not left to a crash.
    pub exported: bool,
}

/// Runs jobs in lanes over a pool, which comes back with what each lane replied; none where no lane ran, the pool has a checkpoint, one stopped, or one waited in vain for another.
fn run_jobs<
    R: Rack + Send,
    A: Area + Send,
    W: Threads + Wait + Sync,
    F: Fn(&[Room]) -> Option<u32> + Sync,
>(
    rt: &W,
    alloc: Global,
    pool: Pool<R, A>,
    gate: &TableGate,
    numbers: Vec<Vec<Span>>,
    jobs: Vec<LaneCommands<F>>,
) -> (Pool<R, A>, Option<Vec<Vec<Reply>>>)
    requires whole { IsWhole R.Rack A.Area pool }
    requires lanes { AreLaneLists numbers.items }
    requires many { length jobs.items ≡ length numbers.items }
    requires few { length numbers.items ≤ 16 }
    requires ready { AreReady F.Fn numbers.items jobs.items }
    ensures { IsWhole R.Rack A.Area result.0 }
{
    if let Some(_) = pool.uber.point().group() {
        return (pool, None);
    }
    let (pool, ran) = run_in_lanes(rt, gate, pool, numbers, jobs);
    match ran {
        Ok(jobs) if gate.is_met() => (pool, replies_of(alloc, jobs)),
        _ => (pool, None),
    }
}

/// Runs scripts in lanes that hold these numbers over a pool.
fn run_held<
    R: Rack + Send,
    A: Area + Send,
    W: Threads + Wait + Sync,
    F: Fn(&[Room]) -> Option<u32> + Sync,
>(
    rt: &W,
    alloc: Global,
    pool: Pool<R, A>,
    gate: &TableGate,
    chooser: &Chooser<F>,
    numbers: Vec<Vec<Span>>,
    scripts: &[&str],
) -> (Pool<R, A>, Option<Vec<Vec<Reply>>>)
    requires whole { IsWhole R.Rack A.Area pool }
    requires chooser { IsChooser F.Fn chooser.now }
    requires lanes { AreLaneLists numbers.items }
    requires few { length numbers.items ≤ 16 }
    ensures { IsWhole R.Rack A.Area result.0 }
{
    match jobs_of(alloc, chooser, &numbers, scripts) {
        Some(jobs) => run_jobs(rt, alloc, pool, gate, numbers, jobs),
        None => (pool, None),
    }
}

/// Runs scripts in lanes over a pool, where the first metaslab that has room for a block takes it.
fn run_scripts<R: Rack + Send, A: Area + Send, W: Threads + Wait + Sync>(
    rt: &W,
    alloc: Global,
    pool: Pool<R, A>,
    stops: &'static [Stop],
    scripts: &[&str],
) -> (Pool<R, A>, Option<Vec<Vec<Reply>>>)
    requires { IsWhole R.Rack A.Area pool }
    ensures { IsWhole R.Rack A.Area result.0 }
{
    let chooser = Chooser::new(
        |rooms: &[Room]| -> Option<u32>
            requires { length rooms.now ≤ most_rooms }
            ensures { Picks rooms.now result }
        { first_fit(rooms) },
    );
    if scripts.len() > 16 {
        return (pool, None);
    }
    let Ok(gate) = TableGate::new(alloc, scripts.len(), stops) else {
        return (pool, None);
    };
    match lists_of(alloc, scripts.len() as u32) {
        Ok(numbers) => run_held(rt, alloc, pool, &gate, &chooser, numbers, scripts),
        Err(_) => (pool, None),
    }
}

/// Makes a pool by a script on a shelf, opens it, runs scripts in lanes over it, and gives it back: exported, or to a crash.
/// Gives what each lane replied.
pub fn run_section<W: AllocGlobal + Threads + Wait + Sync>(
    rt: &W,
    shelf: &mut MemoryShelf,
    section: &Section,
) -> Option<Vec<Vec<Reply>>> {
    printed(rt, shelf, section.before)?;
    let Ok(pool) = import(rt.alloc(), shelf) else {
        return None;
    };
    let (pool, ran) = run_scripts(rt, rt.alloc(), pool, section.stops, section.lanes);
    if section.exported {
        reply_to_export(shelf, pool).ok()?;
    } else {
        reply_to_crash(shelf, pool);
    }
    ran
}

/// What a session of its own prints on a shelf.
pub fn printed<W: AllocGlobal + Threads + Sync>(
    rt: &W,
    shelf: &mut MemoryShelf,
    script: &str,
) -> Option<Vec<u8>> {
    let mut sink = MemorySink::new(rt.alloc(), Vec::new(rt.alloc()));
    run_script(rt, "session", script.as_bytes(), &[], shelf, &mut sink)?;
    Vec::from_slice(rt.alloc(), sink.held()).ok()
}
