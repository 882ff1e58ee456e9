ghost use Rattle.std.specs.Prelude.{◌≡◌, IsErrOf};
ghost use Rattle.draid_names.specs.declared.arm.ArmKind.TheVariants as kind;
ghost use Rattle.draid_disks.specs.Disks.{arm_called};
ghost use Rattle.draid_session.specs.State.{State};
ghost use Rattle.draid_pool.specs.Carries.{CarriesOut};
ghost use Rattle.draid_pool.specs.Failing.{AreaRose, AreasLater};
ghost use Rattle.draid_pool.specs.Pointers.{SamePointers};
ghost use Rattle.draid_pool.specs.Pools.{Represents};
ghost use Rattle.draid_pool.specs.Whole.{IsWhole};
ghost use Rattle.draid_changes.specs.Answers.{SpareDoes};
ghost use Rattle.draid_changes.specs.Behind.{SpareIs};

use crate::attaching::attach_all;
use crate::fault::{ArmFault, arm_fault};
use crate::need::Need;
use crate::reserving::reserve_all;
use crate::rules::may_come;
use draid_area::Area;
use draid_entries::ReserveFault;
use draid_names::{Arm, ArmKind};
use draid_pool::Pool;
use draid_rack::Rack;

/// Gives a slot a spare as one more arm in all metaslabs: from then on what is written to the slot is kept there too. A
/// group that is closing is committed first.
pub fn spare<R: Rack, A: Area>(pool: &mut Pool<R, A>, slot: u32, spare: u32) -> Result<(), ArmFault>
    requires whole { IsWhole R.Rack A.Area pool.old }
    ensures whole { IsWhole R.Rack A.Area pool.new }
    ensures same { SamePointers pool.old pool.new }
    ensures later { AreasLater A.faults pool.old pool.new }
    ensures cause { IsErrOf result ArmFault.Shelf → AreaRose A.faults pool.old pool.new }
    ensures carries { (x : State) → Represents R.Rack A.Area pool.old x
        → CarriesOut R.Rack A.Area pool.new x (SpareDoes x slot spare result) }
    ensures arms { SpareIs slot spare result pool.new.metaslabs.shards.items }
{
    if let Err(fault) = pool.finish() {
        return Err(arm_fault(fault));
    }
    let arm = spare_arm(spare);
    let metaslabs = &pool.metaslabs;
    if let Err(why) = may_come(&metaslabs.shards[0].slots, &metaslabs.shards, slot, arm) {
        return Err(ArmFault::Slot { why });
    }
    match reserve_all(pool, Need::Attachment) {
        Ok(()) => {
            attach_all(&mut pool.metaslabs.shards, slot, arm.kind, arm.number);
            Ok(())
        }
        Err(ReserveFault::Worn { .. }) => Err(ArmFault::Worn),
        Err(ReserveFault::NoMemory) => Err(ArmFault::NoMemory),
    }
}

/// A spare as an arm that comes.
fn spare_arm(spare: u32) -> Arm
    ensures { result ≡ arm_called kind.Spare spare }
{
    Arm {
        kind: ArmKind::Spare,
        number: u64::from(spare),
        offline: false,
        fresh: false,
    }
}
