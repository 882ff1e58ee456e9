ghost use Rattle.std.specs.Prelude.{◌≡◌, ◌⊎◌, IsErrOf};
ghost use Rattle.draid_session.specs.State.{State};
ghost use Rattle.draid_pool.specs.Carries.{CarriesOut};
ghost use Rattle.draid_pool.specs.Failing.{AreaRose, AreasLater};
ghost use Rattle.draid_pool.specs.Pointers.{SamePointers};
ghost use Rattle.draid_pool.specs.Pools.{Represents};
ghost use Rattle.draid_pool.specs.Whole.{IsWhole};
ghost use Rattle.draid_changes.specs.Answers.{ReplaceDoes};
ghost use Rattle.draid_changes.specs.Behind.{DiskIs};
ghost use Rattle.draid_changes.specs.Making.{RackRose};

use crate::attaching::attach_all;
use crate::fault::{ArmFault, arm_fault};
use crate::making::make_all;
use crate::need::Need;
use crate::reserving::reserve_all;
use crate::rules::may_replace;
use draid_area::Area;
use draid_entries::ReserveFault;
use draid_names::{ArmKind, DeviceFault};
use draid_pool::Pool;
use draid_rack::Rack;

/// Gives a slot a new disk as one more arm in all metaslabs, as the leaf of the next number: from then on what is written
/// to the slot is kept there too. A group that is closing is committed first.
pub fn replace<R: Rack, A: Area>(
    pool: &mut Pool<R, A>,
    slot: u32,
    sectors: Option<u64>,
) -> Result<u64, ArmFault>
    requires whole { IsWhole R.Rack A.Area pool.old }
    ensures whole { IsWhole R.Rack A.Area pool.new }
    ensures same { SamePointers pool.old pool.new }
    ensures later { AreasLater A.faults pool.old pool.new }
    ensures cause { IsErrOf result ArmFault.Shelf → AreaRose A.faults pool.old pool.new ⊎ RackRose R.faults pool.old pool.new }
    ensures carries { (x : State) → Represents R.Rack A.Area pool.old x
        → CarriesOut R.Rack A.Area pool.new x (ReplaceDoes x slot sectors result) }
    ensures arms { DiskIs slot sectors result pool.new }
{
    if let Err(fault) = pool.finish() {
        return Err(arm_fault(fault));
    }
    let leaf = pool.uber.next_leaf();
    let metaslabs = &pool.metaslabs;
    if let Err(why) = may_replace(
        &metaslabs.shards[0].slots,
        &metaslabs.shards,
        slot,
        leaf,
        sectors,
    ) {
        return Err(ArmFault::Slot { why });
    }
    match reserve_all(pool, Need::Attachment) {
        Ok(()) => {}
        Err(ReserveFault::Worn { .. }) => return Err(ArmFault::Worn),
        Err(ReserveFault::NoMemory) => return Err(ArmFault::NoMemory),
    }
    match make_all(pool, leaf) {
        Ok(()) => {
            pool.uber.set_next_leaf(leaf + 1);
            attach_all(&mut pool.metaslabs.shards, slot, ArmKind::Leaf, leaf);
            Ok(leaf)
        }
        Err(DeviceFault::Failed) => Err(ArmFault::Shelf),
        Err(DeviceFault::NoMemory) => Err(ArmFault::NoMemory),
    }
}
