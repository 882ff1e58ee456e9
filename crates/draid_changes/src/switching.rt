//! A leaf that goes offline or comes back in all metaslabs, or in none of them. Who has the uberblock has the arms, so that
//! nobody else changes these between the holds.
ghost use Rattle.std.specs.Prelude.{◌≡◌, ◌≤◌, ◌<◌, ◌+◌, IfSome, IsErrOf, false, true};
ghost use Rattle.draid_session.specs.State.{State};
ghost use Rattle.draid_shard.specs.Fits.{Valid};
ghost use Rattle.draid_uber.specs.Slots.{group_of};
ghost use Rattle.draid_uber.specs.Uber as ubers;
ghost use Rattle.draid_pool.specs.Carries.{CarriesOut};
ghost use Rattle.draid_pool.specs.Drifts.{groups_number};
ghost use Rattle.draid_pool.specs.Failing.{AreaRose, AreasLater};
ghost use Rattle.draid_pool.specs.Grouping.{ClosesNext};
ghost use Rattle.draid_pool.specs.Pointers.{SamePointers};
ghost use Rattle.draid_pool.specs.Pools.{Represents};
ghost use Rattle.draid_pool.specs.Rounds.{EachIs, NoneBeyond};
ghost use Rattle.draid_pool.specs.Threads.{KeepsWhole, all_of};
ghost use Rattle.draid_pool.specs.Whole.{IsWhole};
ghost use Rattle.draid_changes.specs.Answers.{SwitchDoes};
ghost use Rattle.draid_changes.specs.Behind.{LeafIs};
ghost use Rattle.draid_changes.specs.Switching.{AllSameArms, LeafIsIn, SwitchesAll, SwitchesIn};

use crate::fault::{ArmFault, arm_fault};
use crate::holding::LeafOp;
use crate::rounds::{reserve_each, switch_each};
use draid_area::Area;
use draid_entries::ReserveFault;
use draid_names::SlotFault;
use draid_pool::{Metaslabs, Pool, finish_group};
use draid_rack::Rack;
use draid_uber::Uber;

/// Takes a leaf offline in all metaslabs of a pool: from then on nothing is read from it or written to it.
pub fn offline<R: Rack, A: Area>(pool: &mut Pool<R, A>, leaf: u64) -> Result<(), ArmFault>
    requires whole { IsWhole R.Rack A.Area pool.old }
    ensures whole { IsWhole R.Rack A.Area pool.new }
    ensures same { SamePointers pool.old pool.new }
    ensures later { AreasLater A.faults pool.old pool.new }
    ensures cause { IsErrOf result ArmFault.Shelf → AreaRose A.faults pool.old pool.new }
    ensures carries { (x : State) → Represents R.Rack A.Area pool.old x
        → CarriesOut R.Rack A.Area pool.new x (SwitchDoes x leaf true result) }
    ensures arms { LeafIs leaf true result pool.new.metaslabs.shards.items }
{
    let count = pool.geometry.props.metaslabs;
    match switch_leaf(&mut pool.metaslabs, &mut pool.uber, count, leaf, true) {
        Some(result) => result,
        None => unreachable!(),
    }
}

/// Takes a leaf online again in all metaslabs of a pool. What it missed stays in the logs of its arms.
pub fn online<R: Rack, A: Area>(pool: &mut Pool<R, A>, leaf: u64) -> Result<(), ArmFault>
    requires whole { IsWhole R.Rack A.Area pool.old }
    ensures whole { IsWhole R.Rack A.Area pool.new }
    ensures same { SamePointers pool.old pool.new }
    ensures later { AreasLater A.faults pool.old pool.new }
    ensures cause { IsErrOf result ArmFault.Shelf → AreaRose A.faults pool.old pool.new }
    ensures carries { (x : State) → Represents R.Rack A.Area pool.old x
        → CarriesOut R.Rack A.Area pool.new x (SwitchDoes x leaf false result) }
    ensures arms { LeafIs leaf false result pool.new.metaslabs.shards.items }
{
    let count = pool.geometry.props.metaslabs;
    match switch_leaf(&mut pool.metaslabs, &mut pool.uber, count, leaf, false) {
        Some(result) => result,
        None => unreachable!(),
    }
}

/// Takes a leaf offline in so many metaslabs, or back online, or in none of them. A group that is closing is committed first;
/// where open writes of others are in its way there is no answer, and it is to be tried again. What a leaf missed stays in the
/// logs of its arms.
pub fn switch_leaf<R: Rack, A: Area, M: Metaslabs<R, A>>(
    metaslabs: &mut M,
    uber: &mut Uber<A>,
    count: u32,
    leaf: u64,
    offline: bool,
) -> Option<Result<(), ArmFault>>
    requires fits { M.fits metaslabs.old }
    requires some { 0 < count }
    requires few { count ≤ 64 }
    requires own { M.owns metaslabs.old groups_number ≡ true }
    requires valid { ubers.Valid A.size uber.old }
    requires ready { EachIs count (ClosesNext R.Rack (group_of (ubers.kept_of uber.old) + 1)) (M.last metaslabs.old) }
    requires beyond { NoneBeyond count (M.last metaslabs.old) }
    requires alike { AllSameArms (M.last metaslabs.old) }
    ensures fits { M.fits metaslabs.new }
    ensures locks { M.locks metaslabs.new ≡ M.locks metaslabs.old }
    ensures owns { M.owns metaslabs.new ≡ M.owns metaslabs.old }
    ensures valid { ubers.Valid A.size uber.new }
    ensures ready { EachIs count (ClosesNext R.Rack (group_of (ubers.kept_of uber.new) + 1)) (M.last metaslabs.new) }
    ensures beyond { NoneBeyond count (M.last metaslabs.new) }
    ensures alike { AllSameArms (M.last metaslabs.new) }
    ensures whole { KeepsWhole R.Rack (M.owns metaslabs.old) (all_of (M.owns metaslabs.old)) (M.last metaslabs.old) (M.last metaslabs.new) }
    ensures leaf { IfSome result (λ answer. LeafIsIn count leaf offline answer (M.last metaslabs.new)) }
    ensures switches { SwitchesIn R.Rack A.Area M.last M.went M.shared (M.owns metaslabs.old) count leaf offline metaslabs.old uber.old result metaslabs.new uber.new }
{
    let Some(finished) = finish_group(metaslabs, uber, count) else {
        return None;
    };
    match finished {
        Ok(()) => {}
        Err(fault) => return Some(Err(arm_fault(fault))),
    }
    Some(switch_arm(metaslabs, count, leaf, offline))
}

/// Takes a leaf offline or online in so many metaslabs, if it is an arm of the first. It is an arm of all then.
fn switch_arm<R: Rack, A: Area, M: Metaslabs<R, A>>(
    metaslabs: &mut M,
    count: u32,
    leaf: u64,
    offline: bool,
) -> Result<(), ArmFault>
    requires fits { M.fits metaslabs.old }
    requires some { 0 < count }
    requires own { M.owns metaslabs.old groups_number ≡ true }
    requires each { EachIs count (Valid R.Rack) (M.last metaslabs.old) }
    requires beyond { NoneBeyond count (M.last metaslabs.old) }
    requires alike { AllSameArms (M.last metaslabs.old) }
    ensures fits { M.fits metaslabs.new }
    ensures locks { M.locks metaslabs.new ≡ M.locks metaslabs.old }
    ensures owns { M.owns metaslabs.new ≡ M.owns metaslabs.old }
    ensures alike { AllSameArms (M.last metaslabs.new) }
    ensures leaf { LeafIsIn count leaf offline result (M.last metaslabs.new) }
    ensures switches { SwitchesAll R.Rack A.Area M.last M.went M.shared (M.owns metaslabs.old) count leaf offline metaslabs.old result metaslabs.new }
{
    let op = metaslabs.hold(0, LeafOp { leaf, out: false });
    if !op.out {
        return Err(ArmFault::Slot {
            why: SlotFault::NoSuch,
        });
    }
    match reserve_each(metaslabs, count) {
        Ok(()) => {}
        Err(ReserveFault::Worn { .. }) => return Err(ArmFault::Worn),
        Err(ReserveFault::NoMemory) => return Err(ArmFault::NoMemory),
    }
    switch_each(metaslabs, count, leaf, offline);
    Ok(())
}
