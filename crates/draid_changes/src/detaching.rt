ghost use Rattle.std.specs.Prelude.{◌≡◌, ◌<◌, Err, IfErr, IfNone, IfOk, IfSome, IsErrOf, None, OnOk, Some, length, slice_get, ℕ};
ghost use Rattle.draid_shard.specs.declared.shard.Shard.{Shard};
ghost use Rattle.draid_disks.specs.Disks.{IsNamed};
ghost use Rattle.draid_session.specs.Arms as arms;
ghost use Rattle.draid_session.specs.Holds.{UberView};
ghost use Rattle.draid_session.specs.State.{State};
ghost use Rattle.draid_pool.specs.Carries.{CarriesOut};
ghost use Rattle.draid_pool.specs.Failing.{AreaRose, AreasLater};
ghost use Rattle.draid_pool.specs.Pointers.{SamePointers};
ghost use Rattle.draid_pool.specs.Pools.{Represents};
ghost use Rattle.draid_pool.specs.Syncing.{AreIdle};
ghost use Rattle.draid_pool.specs.Views.{seen_at};
ghost use Rattle.draid_pool.specs.Whole.{IsWhole};
ghost use Rattle.draid_changes.specs.Behind.{GoingIs, GoingIsBarred, IsGone};
ghost use Rattle.draid_changes.specs.Detaching.{DetachDoes, LeaveDoes, Leaves, MayGo, MayLeave};
ghost use Rattle.draid_changes.specs.Walks.{ChangedBelow};

use crate::need::Need;
use crate::reserving::reserve_all;
use crate::upgrading::stopped;
use draid_area::Area;
use draid_disks::detach_fault;
use draid_machine::ArmName;
use draid_names::{ArmAt, ArmKind, SlotFault};
use draid_pool::{Pool, SyncFault};
use draid_rack::Rack;
use draid_shard::Shard;
use draid_slots::Slots;

/// Why an arm wasn't detached.
#[derive(Clone, Copy)]
pub enum DetachFault {
    /// The rule on slots and arms that is broken first.
    Slot { why: SlotFault },
    /// No group could be committed.
    Sync { why: SyncFault },
}

/// Takes an arm out of its slot in all metaslabs, and commits that. A group that is closing is committed first.
pub fn detach<R: Rack, A: Area>(pool: &mut Pool<R, A>, arm: ArmName) -> Result<u64, DetachFault>
    requires whole { IsWhole R.Rack A.Area pool.old }
    ensures whole { IsWhole R.Rack A.Area pool.new }
    ensures same { SamePointers pool.old pool.new }
    ensures later { AreasLater A.faults pool.old pool.new }
    ensures cause { IsErrOf result (DetachFault.Sync SyncFault.Shelf) → AreaRose A.faults pool.old pool.new }
    ensures carries { (x : State) → Represents R.Rack A.Area pool.old x
        → CarriesOut R.Rack A.Area pool.new x (DetachDoes x arm result) }
    ensures arms { GoingIs arm result pool.new }
{
    if let Err(why) = pool.finish() {
        return Err(DetachFault::Sync { why });
    }
    let at = match place_to_leave(pool, arm) {
        Ok(at) => at,
        Err(why) => return Err(DetachFault::Slot { why }),
    };
    match leave(pool, at, arm) {
        Ok(group) => Ok(group),
        Err(why) => Err(DetachFault::Sync { why }),
    }
}

/// The place of an arm that may leave its slot in all metaslabs, or the rule that it would break first.
fn place_to_leave<R: Rack, A: Area>(pool: &Pool<R, A>, arm: ArmName) -> Result<ArmAt, SlotFault>
    requires whole { IsWhole R.Rack A.Area pool.now }
    ensures may { IfOk result (λ at. (m : ℕ) (shard : Shard R A) → slice_get pool.now.metaslabs.shards.items m ≡ Some shard → MayGo at arm shard) }
    ensures stands { IfOk result (λ at. (x : State) → Represents R.Rack A.Area pool.now x
        → arms.StandsIn x.geometry x.perms arm at.slot (seen_at 0 x.metaslabs)) }
    ensures none { IfOk result (λ at. (x : State) (u : UberView) (why : SlotFault) → Represents R.Rack A.Area pool.now x
        → arms.BreaksDetach x.geometry x.perms arm (seen_at 0 x.metaslabs) u why → ⊥) }
    ensures broken { IfErr result (λ why. (x : State) (u : UberView) → Represents R.Rack A.Area pool.now x
        → arms.BreaksDetach x.geometry x.perms arm (seen_at 0 x.metaslabs) u why) }
    ensures refused { IfErr result (λ why. GoingIsBarred arm why pool.now) }
{
    let shards = &pool.metaslabs.shards;
    let slots = &shards[0].slots;
    let Some(at) = place_of(slots, arm) else {
        return Err(SlotFault::NoSuch);
    };
    match detach_fault(slots, shards, at) {
        Some(why) => Err(why),
        None => Ok(at),
    }
}

/// The place of the arm of this name, in one of the slots.
fn place_of(slots: &Slots, arm: ArmName) -> Option<ArmAt>
    ensures found { IfSome result (λ at. IsNamed slots.now at arm × (at.slot < slots.now.geometry.spec.children)) }
    ensures none { IfNone result ((at : ArmAt) → IsNamed slots.now at arm → ⊥) }
{
    let at = find(slots, arm)?;
    if at.slot < slots.children() {
        Some(at)
    } else {
        None
    }
}

/// Where the arm of this name is.
fn find(slots: &Slots, arm: ArmName) -> Option<ArmAt>
    ensures found { IfSome result (λ at. IsNamed slots.now at arm) }
    ensures none { IfNone result ((at : ArmAt) → IsNamed slots.now at arm → ⊥) }
{
    match arm {
        ArmName::Leaf { leaf } => slots.find(ArmKind::Leaf, leaf),
        ArmName::Spare { spare } => slots.find(ArmKind::Spare, u64::from(spare)),
    }
}

/// Takes an arm out of its slot, where no rule forbids it and no group is closing, and commits the group without it.
fn leave<R: Rack, A: Area>(pool: &mut Pool<R, A>, at: ArmAt, arm: ArmName) -> Result<u64, SyncFault>
    requires whole { IsWhole R.Rack A.Area pool.old }
    requires idle { AreIdle pool.old.metaslabs.shards.items }
    requires may { (m : ℕ) (shard : Shard R A) → slice_get pool.old.metaslabs.shards.items m ≡ Some shard → MayGo at arm shard }
    ensures whole { IsWhole R.Rack A.Area pool.new }
    ensures same { SamePointers pool.old pool.new }
    ensures later { AreasLater A.faults pool.old pool.new }
    ensures cause { IsErrOf result SyncFault.Shelf → AreaRose A.faults pool.old pool.new }
    ensures carries { (x : State) → Represents R.Rack A.Area pool.old x
        → CarriesOut R.Rack A.Area pool.new x (LeaveDoes x at.slot arm result) }
    ensures gone { OnOk result (IsGone arm pool.new) }
{
    if let Err(fault) = reserve_all(pool, Need::Event) {
        return Err(stopped(fault));
    }
    detach_all(&mut pool.metaslabs.shards, at, arm);
    match pool.sync() {
        Ok(synced) => Ok(synced.group),
        Err(why) => Err(why),
    }
}

/// Takes an arm out of its slot in each metaslab, where no rule forbids it.
pub(crate) fn detach_all<R: Rack, A: Area>(shards: &mut Vec<Shard<R, A>>, at: ArmAt, arm: ArmName)
    requires ready { (m : ℕ) (shard : Shard R A) → slice_get shards.old.items m ≡ Some shard → MayLeave R.Rack at arm shard }
    ensures leaves { ChangedBelow (Leaves R.Rack at arm) (length shards.old.items) shards.old.items shards.new.items }
{
    for metaslab in 0..shards.len() {
        detach_in(&mut shards[metaslab], at, arm);
    }
}

/// Takes an arm out of its slot in a metaslab.
fn detach_in<R: Rack, A: Area>(shard: &mut Shard<R, A>, at: ArmAt, arm: ArmName)
    requires { MayLeave R.Rack at arm shard.old }
    ensures { Leaves R.Rack at arm shard.old shard.new }
{
    match draid_disks::detach(shard, at, arm) {
        Ok(()) => {}
        Err(_) => unreachable!(),
    }
}
