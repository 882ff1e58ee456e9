//! A lane's commands as a job: one is done after another, and each has its reply.
ghost use Rattle.std.specs.Prelude.{◌≡◌, ◌≤◌, [], IfOk, Ok, false, length, vec_capacity};
ghost use Rattle.std.specs.Fn.{FnReturnsAt};
ghost use Rattle.draid_choose.specs.Rooms.{IsChooser};
ghost use Rattle.draid_script.specs.Line.{command_in};
ghost use Rattle.draid_session.specs.Choices.{choices_by};
ghost use Rattle.draid_session.specs.Replies.{IsReplyTo};
ghost use Rattle.draid_spec.specs.Geometry.{IsGeometry};
ghost use Rattle.draid_lanes.specs.Lanes.{IsWholeLane};
ghost use Rattle.draid_lanes.specs.Locks.{owned_by};
ghost use Rattle.draid_works.specs.Job.{AreAll, AreRepliesTo, CommandsDone, DoesCommands, IsOnObjects, LeavesWhole, MayAllBeGiven, MayBeGiven, MayDoCommands};
ghost use Rattle.draid_works.specs.Replied.{CommandDone};

use crate::filling::fill_in_lane;
use crate::replies::{
    reply_to_free, reply_to_offline, reply_to_online, reply_to_read, reply_to_rebuild,
    reply_to_scrub, reply_to_sum, reply_to_sync, reply_to_write,
};
use draid_area::Area;
use draid_choose::Chooser;
use draid_lanes::{Gate, Lane, LaneJob};
use draid_names::{Failed, Room};
use draid_rack::Rack;
use draid_reply::Reply;
use draid_script::Line;
use std::alloc::{AllocError, Global};
use std::sync::Wait;
use std::thread::Threads;

/// The commands of a lane, and the replies to those that were done.
pub struct LaneCommands<'c, F: Fn(&[Room]) -> Option<u32>> {
    pub alloc: Global,
    pub chooser: &'c Chooser<F>,
    pub lines: Vec<Line>,
    pub replies: Vec<Reply>,
    /// Whether an area failed, behind these replies.
    pub stopped: bool,
}

// (by hand, since the prover can't state how a list of them is dropped where it is derived)
impl<'c, F: Fn(&[Room]) -> Option<u32>> Drop for LaneCommands<'c, F> {
    fn drop(self) {
        let LaneCommands {
            alloc: _,
            chooser: _,
            lines,
            replies,
            stopped: _,
        } = self;
        let _lost = (lines, replies);
    }
}

impl<'c, F: Fn(&[Room]) -> Option<u32>> LaneCommands<'c, F> {
    /// Commands that are yet to be done, with room for their replies.
    pub fn new(
        alloc: Global,
        chooser: &'c Chooser<F>,
        lines: Vec<Line>,
    ) -> Result<LaneCommands<'c, F>, AllocError>
        ensures chooser { IfOk result (λ job. job.chooser.now ≡ chooser.now) }
        ensures lines { IfOk result (λ job. job.lines ≡ lines) }
        ensures none { IfOk result (λ job. (job.replies.items ≡ []) × (job.stopped ≡ false)) }
        ensures room { IfOk result (λ job. length lines.items ≤ vec_capacity job.replies) }
    {
        let replies = Vec::with_capacity(alloc, lines.len())?;
        Ok(LaneCommands {
            alloc,
            chooser,
            lines,
            replies,
            stopped: false,
        })
    }
}

/// Does a command on objects of the lane's.
fn reply_on_objects<
    'a,
    'b,
    R: Rack,
    A: Area,
    G: Gate,
    W: Wait + Threads + Sync,
    F: Fn(&[Room]) -> Option<u32>,
>(alloc: Global, lane: &mut Lane<'a, 'b, R, A, G, W>, chooser: &Chooser<F>, line: &Line) -> Reply
    requires chooser { IsChooser F.Fn chooser.now }
    requires whole { IsWholeLane R.Rack A.Area lane.old }
    requires geometry { IsGeometry lane.old.geometry }
    requires given { MayBeGiven (owned_by lane.old.metaslabs.passes.items) line.now }
    requires objects { IsOnObjects (command_in line.now) }
    ensures leaves { LeavesWhole R.Rack A.Area lane.old lane.new }
    ensures fits { IsReplyTo (command_in line.now) result }
    ensures done { CommandDone R.Rack A.Area (choices_by (FnReturnsAt F.Fn chooser.now)) (command_in line.now) (Ok result) lane.old lane.new }
{
    match line {
        Line::Write { object, bytes } => reply_to_write(alloc, lane, chooser, *object, bytes),
        Line::Fill {
            first,
            count,
            len,
            seed,
        } => {
            let rt = lane.metaslabs.rt;
            fill_in_lane(rt, alloc, lane, chooser, *first, *count, *len, *seed)
        }
        Line::Free { object } => reply_to_free(lane, *object),
        Line::Read { object } => reply_to_read(alloc, lane, *object),
        Line::Sum { first, count } => reply_to_sum(alloc, lane, *first, *count),
        _ => unreachable!(),
    }
}

/// Does a command of a lane. Where an area failed there is no reply.
fn reply_in_lane<
    'a,
    'b,
    R: Rack,
    A: Area,
    G: Gate,
    W: Wait + Threads + Sync,
    F: Fn(&[Room]) -> Option<u32>,
>(
    alloc: Global,
    mut lane: Lane<'a, 'b, R, A, G, W>,
    chooser: &Chooser<F>,
    line: &Line,
) -> (Lane<'a, 'b, R, A, G, W>, Result<Reply, Failed>)
    requires chooser { IsChooser F.Fn chooser.now }
    requires whole { IsWholeLane R.Rack A.Area lane }
    requires geometry { IsGeometry lane.geometry }
    requires given { MayBeGiven (owned_by lane.metaslabs.passes.items) line.now }
    ensures leaves { LeavesWhole R.Rack A.Area lane.entry result.0 }
    ensures fits { IfOk result.1 (IsReplyTo (command_in line.now)) }
    ensures done { CommandDone R.Rack A.Area (choices_by (FnReturnsAt F.Fn chooser.now)) (command_in line.now) result.1 lane.entry result.0 }
{
    match line {
        Line::Sync => reply_to_sync(lane),
        Line::Offline { leaf } => reply_to_offline(lane, *leaf),
        Line::Online { leaf } => reply_to_online(lane, *leaf),
        Line::Rebuild { limit } => reply_to_rebuild(lane, *limit),
        Line::Scrub { limit } => {
            let (lane, reply) = reply_to_scrub(lane, *limit);
            (lane, Ok(reply))
        }
        _ => {
            let reply = reply_on_objects(alloc, &mut lane, chooser, line);
            (lane, Ok(reply))
        }
    }
}

/// Does commands of a lane one after another. Where an area failed it stops, and is false.
fn reply_to_each<
    'a,
    'b,
    R: Rack,
    A: Area,
    G: Gate,
    W: Wait + Threads + Sync,
    F: Fn(&[Room]) -> Option<u32>,
>(
    alloc: Global,
    mut lane: Lane<'a, 'b, R, A, G, W>,
    chooser: &Chooser<F>,
    lines: &[Line],
    replies: &mut Vec<Reply>,
) -> (Lane<'a, 'b, R, A, G, W>, bool)
    requires chooser { IsChooser F.Fn chooser.now }
    requires whole { IsWholeLane R.Rack A.Area lane }
    requires geometry { IsGeometry lane.geometry }
    requires given { MayAllBeGiven (owned_by lane.metaslabs.passes.items) lines.now }
    requires none { replies.old.items ≡ [] }
    requires room { length lines.now ≤ vec_capacity replies.old }
    ensures leaves { LeavesWhole R.Rack A.Area lane.entry result.0 }
    ensures fits { AreRepliesTo lines.now replies.new.items }
    ensures all { AreAll result.1 lines.now replies.new.items }
    ensures done { CommandsDone R.Rack A.Area (choices_by (FnReturnsAt F.Fn chooser.now)) lines.now replies.new.items result.1 lane.entry result.0 }
{
    for i in 0..lines.len() {
        let (next, came) = reply_in_lane(alloc, lane, chooser, &lines[i]);
        lane = next;
        match came {
            Ok(reply) => replies.push_reserved(reply),
            Err(Failed) => return (lane, true),
        }
    }
    (lane, false)
}

/// Does the commands of a lane, and keeps the replies to those that were done.
fn do_commands<
    'a,
    'b,
    'c,
    R: Rack,
    A: Area,
    G: Gate,
    W: Wait + Threads + Sync,
    F: Fn(&[Room]) -> Option<u32>,
>(job: &mut LaneCommands<'c, F>, lane: Lane<'a, 'b, R, A, G, W>) -> Lane<'a, 'b, R, A, G, W>
    requires may { MayDoCommands R.Rack A.Area F.Fn job.old.chooser.now job.old.lines.items job.old.replies lane }
    ensures does { DoesCommands R.Rack A.Area (choices_by (FnReturnsAt F.Fn job.old.chooser.now)) job.old.lines lane.entry job.new.lines job.new.replies.items job.new.stopped result }
{
    let (lane, stopped) = reply_to_each(job.alloc, lane, job.chooser, &job.lines, &mut job.replies);
    job.stopped = stopped;
    lane
}

impl<
    'c,
    R: Rack,
    A: Area,
    G: Gate,
    W: Wait + Threads + Sync,
    F: Fn(&[Room]) -> Option<u32>,
> LaneJob<R, A, G, W> for LaneCommands<'c, F> {
    ghost use Rattle.std.specs.Prelude.{◌≡◌, IsSomeAnd, Some};
    ghost use Rattle.std.specs.Thread.{IsSync};
    ghost use Rattle.draid_lanes.specs.declared.lane.Lane.{Lane};
    ghost use Rattle.draid_works.specs.Job.{DoesCommands, MayDoCommands};

    // (a sum makes threads, which share the lane's runtime)
    ghost needs = { λ job lane. IsSync W.row × MayDoCommands R.Rack A.Area F.Fn job.chooser.now job.lines.items job.replies lane };

    ghost relates = { λ job old done new. DoesCommands R.Rack A.Area (choices_by (FnReturnsAt F.Fn job.chooser.now)) job.lines old done.lines done.replies.items done.stopped new };

    fn run<'a, 'b>(&mut self, place: &mut Option<Lane<'a, 'b, R, A, G, W>>)
        requires needed { IsSomeAnd place.old (λ lane. IsSync W.row × MayDoCommands R.Rack A.Area F.Fn self.old.chooser.now self.old.lines.items self.old.replies lane) }
        ensures related { (lane : Lane R A G W) → place.old ≡ Some lane → IsSomeAnd place.new (λ next. DoesCommands R.Rack A.Area (choices_by (FnReturnsAt F.Fn self.old.chooser.now)) self.old.lines lane self.new.lines self.new.replies.items self.new.stopped next) }
    {
        let Some(lane) = place.take() else {
            unreachable!()
        };
        let lane = do_commands(self, lane);
        *place = Some(lane);
    }
}
