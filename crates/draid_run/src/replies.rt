//! What the commands of an open pool reply.
ghost use Rattle.std.specs.Prelude.{◌≡◌, ◌⊎◌, None, IfOk, IsErr};
ghost use Rattle.std.specs.Fn.{FnReturnsAt};
ghost use Rattle.draid_choose.specs.Rooms.{IsChooser};
ghost use Rattle.draid_script.specs.Line.{AttachSpare, RebuildPool, ScrubPool, ReplaceDisk, TakeOffline, TakeOnline, DamageSector, FreeObject, IsInRange, ReadObject, ShowStatus, SumObjects, WriteObject, command_in};
ghost use Rattle.draid_session.specs.Certain.{MakesLeaves};
ghost use Rattle.draid_session.specs.Choices.{choices_by};
ghost use Rattle.draid_session.specs.Replies.{IsReplyTo};
ghost use Rattle.draid_session.specs.Session.{MayBreak};
ghost use Rattle.draid_session.specs.State.{State};
ghost use Rattle.draid_pool.specs.Carries.{CarriesOut};
ghost use Rattle.draid_pool.specs.Pools.{Represents};
ghost use Rattle.draid_pool.specs.Whole.{IsWhole};
ghost use Rattle.draid_pool.specs.Failing.{AreaFails, RackFails};
ghost use Rattle.draid_run.specs.Desks.{AnswerDoes, BreaksKnown, asked_in};
ghost use Rattle.draid_pool.specs.Knows.{Teaches};
ghost use Rattle.draid_store.specs.Says.{DamageSays, FreeSays, ReadSays, SumSays};
ghost use Rattle.draid_status.specs.Says.{StatusSays};
ghost use Rattle.draid_changes.specs.Behind.{ArmsBehind};
ghost use Rattle.draid_visits.specs.Behind.{PassesBehind};
ghost use Rattle.draid_changes.specs.Says.{ReplaceSays, SpareSays, SwitchSays};

use crate::rebalancing::reply_to_rebalance;
use draid_area::Area;
use draid_changes::{
    reply_to_detach, reply_to_offline, reply_to_online, reply_to_replace, reply_to_spare,
    reply_to_upgrade,
};
use draid_choose::Chooser;
use draid_names::{Failed, Room};
use draid_pool::{Pool, reply_to_sync};
use draid_rack::Rack;
use draid_reply::Reply;
use draid_rewinds::{reply_to_checkpoint, reply_to_discard, reply_to_rewind};
use draid_script::Line;
use draid_status::reply_to_status;
use draid_store::{
    fill, reply_to_damage, reply_to_free, reply_to_read, reply_to_sum, reply_to_write,
};
use draid_visits::{reply_to_cancel, reply_to_rebuild, reply_to_scrub};
use std::alloc::Global;
use std::thread::Threads;

/// What a pool replies to a line that asks something of it, or that a device of it failed.
pub(crate) fn reply<R: Rack, A: Area, F: Fn(&[Room]) -> Option<u32>>(
    rt: &(impl Threads + Sync),
    alloc: Global,
    pool: &mut Pool<R, A>,
    chooser: &Chooser<F>,
    line: &Line,
) -> Result<Reply, Failed>
    requires chooser { IsChooser F.Fn chooser.now }
    requires range { IsInRange (command_in line.now) }
    requires asks { asked_in (command_in line.now) ≡ None → ⊥ }
    requires whole { IsWhole R.Rack A.Area pool.old }
    ensures whole { IsWhole R.Rack A.Area pool.new }
    ensures fits { IfOk result (IsReplyTo (command_in line.now)) }
    ensures knows { IfOk result (λ reply. Teaches (command_in line.now) reply pool.old pool.new) }
    ensures arms { IfOk result (λ reply. ArmsBehind (command_in line.now) reply pool.new) }
    ensures passes { IfOk result (λ reply. PassesBehind (command_in line.now) reply pool.new) }
    ensures breaks { IsErr result → MayBreak (command_in line.now) × (AreaFails A.faults pool.new ⊎ (MakesLeaves (command_in line.now) × RackFails R.faults pool.new)) × BreaksKnown (command_in line.now) pool.old pool.new }
    ensures step { (x : State) → Represents R.Rack A.Area pool.old x
        → CarriesOut R.Rack A.Area pool.new x (AnswerDoes x (choices_by (FnReturnsAt F.Fn chooser.now)) (command_in line.now) result) }
{
    match line {
        Line::Write { object, bytes } => Ok(reply_to_write(pool, chooser, *object, bytes)),
        Line::Fill {
            first,
            count,
            len,
            seed,
        } => Ok(fill(alloc, pool, chooser, *first, *count, *len, *seed)),
        Line::Free { object } => Ok(reply_to_free(pool, *object)),
        Line::Read { object } => Ok(reply_to_read(pool, *object)),
        Line::Sum { first, count } => Ok(reply_to_sum(rt, pool, *first, *count)),
        Line::Offline { leaf } => reply_to_offline(pool, *leaf),
        Line::Online { leaf } => reply_to_online(pool, *leaf),
        Line::Rebuild { limit } => reply_to_rebuild(pool, *limit),
        Line::Scrub { limit } => Ok(reply_to_scrub(pool, *limit)),
        Line::Rebalance { slot } => reply_to_rebalance(pool, *slot),
        Line::Cancel => Ok(reply_to_cancel(pool)),
        Line::Damage { leaf, sector } => Ok(reply_to_damage(pool, *leaf, *sector)),
        Line::Replace { slot, sectors } => reply_to_replace(pool, *slot, *sectors),
        Line::Spare { slot, spare } => reply_to_spare(alloc, pool, *slot, *spare),
        Line::Status { format } => Ok(reply_to_status(alloc, pool, *format)),
        Line::Detach { arm } => reply_to_detach(pool, *arm),
        Line::Upgrade => reply_to_upgrade(pool),
        Line::Checkpoint => reply_to_checkpoint(pool),
        Line::Rewind => reply_to_rewind(pool),
        Line::Discard => reply_to_discard(pool),
        Line::Sync => reply_to_sync(pool),
        _ => unreachable!(),
    }
}
