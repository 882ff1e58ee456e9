//! The lanes of a section run in threads, each metaslab under a lock of its own.
ghost use Rattle.std.specs.Prelude.{◌≡◌, ◌≤◌, [], None, IfErr, IfOk, length, map, vec_capacity};
ghost use Rattle.std.specs.Fn.{FnReturnsAt};
ghost use Rattle.draid_choose.specs.Rooms.{IsChooser};
ghost use Rattle.draid_uber.specs.Uber.{point_of};
ghost use Rattle.draid_session.specs.Choices.{choices_by};
ghost use Rattle.draid_session.specs.Known.{Known};
ghost use Rattle.draid_session.specs.State.{State};
ghost use Rattle.draid_pool.specs.Failing.{AreaRose, AreasLater};
ghost use Rattle.draid_pool.specs.Knows.{KnowsPointers};
ghost use Rattle.draid_pool.specs.Pools.{Represents};
ghost use Rattle.draid_pool.specs.Whole.{IsWhole};
ghost use Rattle.draid_clashes.specs.Lanes.{lanes_in};
ghost use Rattle.draid_pool.specs.Keeping.{SamePool};
ghost use Rattle.draid_run.specs.Sections.{IsStopped, LanesTeach, MayRunLanes, RunsSection, StopWhere};
ghost use Rattle.draid_print.specs.Printing.{replies_in};
ghost use Rattle.draid_program.specs.Jobs.{AreJobsOf, told_of};

use draid_area::Area;
use draid_choose::Chooser;
use draid_lanes::OpenGate;
use draid_names::{NoMemory, Room};
use draid_pool::Pool;
use draid_rack::Rack;
use draid_run::LaneReplies;
use draid_script::Line;
use draid_section::run_in_lanes;
use draid_tables::lists_of;
use draid_works::LaneCommands;
use std::alloc::{AllocError, Global};
use std::mem;
use std::sync::Wait;
use std::thread::Threads;

/// The jobs of lanes with these lines, of which none was done yet.
fn jobs_of<'c, F: Fn(&[Room]) -> Option<u32>>(
    alloc: Global,
    chooser: &'c Chooser<F>,
    lanes: Vec<Vec<Line>>,
) -> Result<Vec<LaneCommands<'c, F>>, AllocError>
    ensures { IfOk result (λ jobs. AreJobsOf chooser.now lanes.items jobs.items) }
{
    let mut jobs = Vec::with_capacity(alloc, lanes.len())?;
    for lines in lanes {
        jobs.push_reserved(LaneCommands::new(alloc, chooser, lines)?);
    }
    Ok(jobs)
}

/// What the lanes' jobs replied.
fn replies_of<F: Fn(&[Room]) -> Option<u32>>(
    alloc: Global,
    jobs: Vec<LaneCommands<F>>,
    mut ran: Vec<LaneReplies>,
) -> Vec<LaneReplies>
    requires none { ran.items ≡ [] }
    requires room { length jobs.items ≤ vec_capacity ran }
    ensures { result.items ≡ map told_of jobs.entry.items }
{
    for mut job in jobs {
        let replies = mem::replace(&mut job.replies, Vec::new(alloc));
        ran.push_reserved(LaneReplies {
            replies,
            stopped: job.stopped,
        });
    }
    ran
}

/// Runs the lanes of a section in threads over a pool without a checkpoint, each metaslab under a lock of its own.
pub(crate) fn run_lanes<
    R: Rack + Send,
    A: Area + Send,
    W: Threads + Wait + Sync,
    F: Fn(&[Room]) -> Option<u32> + Sync,
>(
    rt: &W,
    alloc: Global,
    pool: Pool<R, A>,
    chooser: &Chooser<F>,
    lanes: Vec<Vec<Line>>,
) -> (Pool<R, A>, Result<Vec<LaneReplies>, NoMemory>)
    requires chooser { IsChooser F.Fn chooser.now }
    requires whole { IsWhole R.Rack A.Area pool }
    requires lanes { MayRunLanes (lanes_in lanes.items) }
    requires point { (point_of pool.uber).group ≡ None }
    ensures whole { IsWhole R.Rack A.Area result.0 }
    ensures refused { IfErr result.1 (λ _. SamePool pool result.0) }
    ensures stops { IfOk result.1 (λ ran. StopWhere (lanes_in lanes.items) ran.items) }
    ensures runs { IfOk result.1 (λ ran. (x : State) → Represents R.Rack A.Area pool x
        → RunsSection R.Rack A.Area (choices_by (FnReturnsAt F.Fn chooser.now)) x (lanes_in lanes.items) (replies_in ran.items) result.0) }
    ensures teach { IfOk result.1 (λ ran. (known : Known) → KnowsPointers pool known → LanesTeach (lanes_in lanes.items) (replies_in ran.items) known result.0) }
    ensures cause { IfOk result.1 (λ ran. IsStopped ran.items → AreaRose A.faults pool result.0) }
    ensures later { AreasLater A.faults pool result.0 }
{
    let Ok(numbers) = lists_of(alloc, &lanes) else {
        return (pool, Err(NoMemory));
    };
    let Ok(room) = Vec::with_capacity(alloc, lanes.len()) else {
        return (pool, Err(NoMemory));
    };
    let Ok(jobs) = jobs_of(alloc, chooser, lanes) else {
        return (pool, Err(NoMemory));
    };
    let (pool, ran) = run_in_lanes(rt, &OpenGate, pool, numbers, jobs);
    match ran {
        Ok(done) => (pool, Ok(replies_of(alloc, done, room))),
        Err(NoMemory) => (pool, Err(NoMemory)),
    }
}
