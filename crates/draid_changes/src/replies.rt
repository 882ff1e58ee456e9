//! What the commands on the arms of a pool reply. Where a device failed there is no reply.
ghost use Rattle.std.specs.Prelude.{◌⊎◌, IfOk, IsErr, false, true};
ghost use Rattle.draid_script.specs.Line.{AttachSpare, ReplaceDisk, TakeOffline, TakeOnline};
ghost use Rattle.draid_session.specs.Replies.{IsReplyTo};
ghost use Rattle.draid_session.specs.State.{State};
ghost use Rattle.draid_pool.specs.Carries.{CarriesOut};
ghost use Rattle.draid_pool.specs.Failing.{AreaRose, AreasLater};
ghost use Rattle.draid_pool.specs.Pointers.{SamePointers};
ghost use Rattle.draid_pool.specs.Pools.{Represents};
ghost use Rattle.draid_pool.specs.Whole.{IsWhole};
ghost use Rattle.draid_changes.specs.Behind.{ArmsBehind};
ghost use Rattle.draid_changes.specs.Making.{RackRose};
ghost use Rattle.draid_changes.specs.Says.{ReplaceSays, SpareSays, SwitchSays};

use crate::fault::ArmFault;
use crate::replacing::replace;
use crate::sparing::spare;
use crate::switching::{offline, online};
use draid_area::Area;
use draid_names::Failed;
use draid_pool::Pool;
use draid_rack::Rack;
use draid_reply::Reply;
use draid_script::CommandName;
use draid_spec::spare_name;
use std::alloc::Global;

/// Takes a leaf offline.
pub fn reply_to_offline<R: Rack, A: Area>(pool: &mut Pool<R, A>, leaf: u64) -> Result<Reply, Failed>
    requires whole { IsWhole R.Rack A.Area pool.old }
    ensures whole { IsWhole R.Rack A.Area pool.new }
    ensures same { SamePointers pool.old pool.new }
    ensures later { AreasLater A.faults pool.old pool.new }
    ensures cause { IsErr result → AreaRose A.faults pool.old pool.new }
    ensures fits { IfOk result (IsReplyTo (TakeOffline leaf)) }
    ensures step { (x : State) → Represents R.Rack A.Area pool.old x
        → CarriesOut R.Rack A.Area pool.new x (SwitchSays leaf true result x) }
    ensures arms { IfOk result (λ reply. ArmsBehind (TakeOffline leaf) reply pool.new) }
{
    match offline(pool, leaf) {
        Ok(()) => Ok(Reply::OfflineDone { leaf }),
        Err(ArmFault::Slot { .. }) => Ok(Reply::OfflineRefused { leaf }),
        Err(ArmFault::Worn) => Ok(Reply::OfflineWorn { leaf }),
        Err(ArmFault::NoMemory) => Ok(Reply::NoMemory {
            command: CommandName::Offline,
        }),
        Err(ArmFault::Shelf) => Err(Failed),
    }
}

/// Takes a leaf online.
pub fn reply_to_online<R: Rack, A: Area>(pool: &mut Pool<R, A>, leaf: u64) -> Result<Reply, Failed>
    requires whole { IsWhole R.Rack A.Area pool.old }
    ensures whole { IsWhole R.Rack A.Area pool.new }
    ensures same { SamePointers pool.old pool.new }
    ensures later { AreasLater A.faults pool.old pool.new }
    ensures cause { IsErr result → AreaRose A.faults pool.old pool.new }
    ensures fits { IfOk result (IsReplyTo (TakeOnline leaf)) }
    ensures step { (x : State) → Represents R.Rack A.Area pool.old x
        → CarriesOut R.Rack A.Area pool.new x (SwitchSays leaf false result x) }
    ensures arms { IfOk result (λ reply. ArmsBehind (TakeOnline leaf) reply pool.new) }
{
    match online(pool, leaf) {
        Ok(()) => Ok(Reply::OnlineDone { leaf }),
        Err(ArmFault::Slot { .. }) => Ok(Reply::OnlineRefused { leaf }),
        Err(ArmFault::Worn) => Ok(Reply::OnlineWorn { leaf }),
        Err(ArmFault::NoMemory) => Ok(Reply::NoMemory {
            command: CommandName::Online,
        }),
        Err(ArmFault::Shelf) => Err(Failed),
    }
}

/// Gives a slot a spare, of this number among those of the pool.
pub fn reply_to_spare<R: Rack, A: Area>(
    alloc: Global,
    pool: &mut Pool<R, A>,
    slot: u32,
    number: u32,
) -> Result<Reply, Failed>
    requires whole { IsWhole R.Rack A.Area pool.old }
    ensures whole { IsWhole R.Rack A.Area pool.new }
    ensures same { SamePointers pool.old pool.new }
    ensures later { AreasLater A.faults pool.old pool.new }
    ensures cause { IsErr result → AreaRose A.faults pool.old pool.new }
    ensures fits { IfOk result (IsReplyTo (AttachSpare slot number)) }
    ensures step { (x : State) → Represents R.Rack A.Area pool.old x
        → CarriesOut R.Rack A.Area pool.new x (SpareSays slot number result x) }
    ensures arms { IfOk result (λ reply. ArmsBehind (AttachSpare slot number) reply pool.new) }
{
    // (before the spare comes: a want of memory may not follow that)
    let Ok(name) = spare_name(alloc, pool.geometry.spec, number) else {
        return Ok(Reply::NoMemory {
            command: CommandName::Spare,
        });
    };
    match spare(pool, slot, number) {
        Ok(()) => Ok(Reply::Spared { slot, name }),
        Err(ArmFault::Slot { why }) => Ok(Reply::SpareRefused { slot, why }),
        Err(ArmFault::Worn) => Ok(Reply::SpareWorn { slot }),
        Err(ArmFault::NoMemory) => Ok(Reply::NoMemory {
            command: CommandName::Spare,
        }),
        Err(ArmFault::Shelf) => Err(Failed),
    }
}

/// Gives a slot a new disk, of so many sectors where that is said.
pub fn reply_to_replace<R: Rack, A: Area>(
    pool: &mut Pool<R, A>,
    slot: u32,
    sectors: Option<u64>,
) -> Result<Reply, Failed>
    requires whole { IsWhole R.Rack A.Area pool.old }
    ensures whole { IsWhole R.Rack A.Area pool.new }
    ensures same { SamePointers pool.old pool.new }
    ensures later { AreasLater A.faults pool.old pool.new }
    ensures cause { IsErr result → AreaRose A.faults pool.old pool.new ⊎ RackRose R.faults pool.old pool.new }
    ensures fits { IfOk result (IsReplyTo (ReplaceDisk slot sectors)) }
    ensures step { (x : State) → Represents R.Rack A.Area pool.old x
        → CarriesOut R.Rack A.Area pool.new x (ReplaceSays slot sectors result x) }
    ensures arms { IfOk result (λ reply. ArmsBehind (ReplaceDisk slot sectors) reply pool.new) }
{
    match replace(pool, slot, sectors) {
        Ok(leaf) => Ok(Reply::Replaced { slot, leaf }),
        Err(ArmFault::Slot { why }) => Ok(Reply::ReplaceRefused { slot, why }),
        Err(ArmFault::Worn) => Ok(Reply::ReplaceWorn { slot }),
        Err(ArmFault::NoMemory) => Ok(Reply::NoMemory {
            command: CommandName::Replace,
        }),
        Err(ArmFault::Shelf) => Err(Failed),
    }
}
