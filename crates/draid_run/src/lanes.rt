//! A section: its lines are kept as they are read, and at its end its lanes run.
ghost use Rattle.std.specs.Prelude.{◌≡◌, ◌<◌, [], IfNone, IfOk, IfSome, length, replicate};
ghost use Rattle.std.specs.Fn.{FnReturnsAt};
ghost use Rattle.draid_script.specs.Line.{command_in};
ghost use Rattle.draid_session.specs.Choices.{choices_by};
ghost use Rattle.draid_session.specs.Sections.{ClashesMend, NoClash, RefusesSection};
ghost use Rattle.draid_session.specs.Places.{with_command};
ghost use Rattle.draid_session.specs.Session.{Desk};
ghost use Rattle.draid_pool.specs.Shelves.{OnShelf};
ghost use Rattle.draid_run.specs.Desks.{IsDesk, IsPool};
ghost use Rattle.draid_clashes.specs.Lanes.{lanes_in};
ghost use Rattle.draid_run.specs.Sections.{AreLanes, SectionIs};

use crate::answer::no_pool;
use crate::sections::Sections;
use draid_area::Area;
use draid_choose::Chooser;
use draid_clashes::{least_clash, two_mend};
use draid_names::{NoMemory, Room};
use draid_pool::Pool;
use draid_print::LaneReplies;
use draid_rack::Rack;
use draid_reply::Reply;
use draid_script::{CommandName, Line};
use std::alloc::Global;

/// The lanes of a section that opens.
pub(crate) fn open_lanes(alloc: Global, count: u32) -> Result<Vec<Vec<Line>>, NoMemory>
    ensures { IfOk result (λ lanes. lanes_in lanes.items ≡ replicate count []) }
{
    let mut lanes = Vec::with_capacity(alloc, count as usize)?;
    for _ in 0..count {
        lanes.push_reserved(Vec::new(alloc));
    }
    Ok(lanes)
}

/// Gives one of the lanes a line more.
pub(crate) fn add_line(lanes: &mut Vec<Vec<Line>>, lane: u32, line: Line) -> Result<(), NoMemory>
    requires there { lane < length lanes.old.items }
    ensures added { IfOk result (λ _. lanes_in lanes.new.items ≡ with_command lane (command_in line) (lanes_in lanes.old.items)) }
{
    lanes[lane as usize].push(line)?;
    Ok(())
}

/// Why lanes aren't run, if there is a reason.
fn refusal(alloc: Global, lanes: &[Vec<Line>]) -> Option<Reply>
    ensures some { IfSome result (RefusesSection (lanes_in lanes.now)) }
    ensures apart { IfNone result (NoClash (lanes_in lanes.now)) }
    ensures one_mends { IfNone result (ClashesMend (lanes_in lanes.now) → ⊥) }
{
    match least_clash(alloc, lanes) {
        Ok(Some(object)) => return Some(Reply::LanesClash { object }),
        Ok(None) => {}
        Err(NoMemory) => {
            return Some(Reply::NoMemory {
                command: CommandName::Lanes,
            });
        }
    }
    if two_mend(lanes) {
        return Some(Reply::LanesClashMend);
    }
    None
}

/// Runs the lanes of a section on the pool that is open, if one is, no checkpoint stands and they may be run. Else there is one
/// reply.
pub(crate) fn run_lanes<R: Rack, A: Area, F: Fn(&[Room]) -> Option<u32>, G: Sections<R, A>>(
    alloc: Global,
    sections: &G,
    pool: &mut Option<Pool<R, A>>,
    chooser: &Chooser<F>,
    lanes: Vec<Vec<Line>>,
) -> Result<Vec<LaneReplies>, Reply>
    requires sections { G.ready sections.now (FnReturnsAt F.Fn chooser.now) }
    requires lanes { AreLanes lanes.items }
    requires desk { (x : Desk) × IsPool R.Rack A.Area pool.old x }
    ensures did { (entry now : OnShelf) (x : Desk) → IsDesk R.Rack A.Area entry now pool.old x
        → SectionIs R.Rack A.Area (choices_by (FnReturnsAt F.Fn chooser.now)) (lanes_in lanes.items) entry now x pool.new result }
{
    let Some(open) = pool.take() else {
        return Err(no_pool(CommandName::Lanes));
    };
    if let Some(_) = open.uber.point().group() {
        *pool = Some(open);
        return Err(Reply::LanesCheckpoint);
    }
    if let Some(reply) = refusal(alloc, &lanes) {
        *pool = Some(open);
        return Err(reply);
    }
    let (open, ran) = sections.run_section(chooser, open, lanes);
    *pool = Some(open);
    match ran {
        Ok(ran) => Ok(ran),
        Err(NoMemory) => Err(Reply::NoMemory {
            command: CommandName::Lanes,
        }),
    }
}
