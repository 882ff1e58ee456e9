ghost use Rattle.std.specs.Prelude.{◌≡◌, ◌↔◌, ◌<◌, ◌^◌, ◌∷◌, [], ℕ, List, false, IsErrOf, IsTrue, OnOk, Some, slice_get};
ghost use Rattle.draid_names.specs.declared.arm.ArmKind.TheVariants.{Spare};
ghost use Rattle.draid_machine.specs.declared.names.ArmName.{ArmName};
ghost use Rattle.draid_slots.specs.States as slots_of;
ghost use Rattle.draid_slots.specs.Table.{IsTable, IsThere};
ghost use Rattle.draid_shard.specs.declared.shard.Shard.{Shard};
ghost use Rattle.draid_disks.specs.Checks.{Each};
ghost use Rattle.draid_disks.specs.Disks.{IsNamed};
ghost use Rattle.draid_session.specs.Balance as balance;
ghost use Rattle.draid_session.specs.State.{State};
ghost use Rattle.draid_pool.specs.Carries.{CarriesOut};
ghost use Rattle.draid_pool.specs.Failing.{AreaRose, AreasLater};
ghost use Rattle.draid_pool.specs.Pointers.{SamePointers};
ghost use Rattle.draid_pool.specs.Pools.{Represents};
ghost use Rattle.draid_pool.specs.Syncing.{AreIdle, Phase, end_of};
ghost use Rattle.draid_pool.specs.Whole.{IsWhole};
ghost use Rattle.draid_changes.specs.Balancing.{AllAlone, AllMayLose, GoDoes, HasNoPass, HasOthers, OneGoes, OthersAre, OthersDo, SomeGo};

use crate::detaching::detach_all;
use crate::need::Need;
use crate::reserving::reserve_all;
use crate::upgrading::stopped;
use draid_area::Area;
use draid_machine::ArmName;
use draid_names::{Arm, ArmAt, ArmKind};
use draid_pool::{Pool, SyncFault};
use draid_rack::Rack;
use draid_shard::Shard;
use draid_slots::Slots;

/// Takes all arms of a slot but the last out of it in all metaslabs, and commits that. They stay, and nothing changes,
/// where a scrub had errors, or the last arm isn't a leaf with an empty log in each metaslab, or there is no other:
/// then it answers None. Each metaslab is without a pass, and no group is closing.
pub fn detach_others<R: Rack, A: Area>(
    pool: &mut Pool<R, A>,
    slot: u32,
    errors: u64,
) -> Result<Option<u64>, SyncFault>
    requires whole { IsWhole R.Rack A.Area pool.old }
    requires idle { AreIdle pool.old.metaslabs.shards.items }
    requires passes { Each (λ (shard : Shard R A). shard.pass ≡ None) pool.old.metaslabs.shards.items }
    requires slot { slot < pool.old.geometry.spec.children }
    ensures whole { IsWhole R.Rack A.Area pool.new }
    ensures same { SamePointers pool.old pool.new }
    ensures later { AreasLater A.faults pool.old pool.new }
    ensures cause { IsErrOf result SyncFault.Shelf → AreaRose A.faults pool.old pool.new }
    ensures carries { (x : State) → Represents R.Rack A.Area pool.old x
        → CarriesOut R.Rack A.Area pool.new x (OthersDo x slot errors result) }
    ensures passes { Each (λ (shard : Shard R A). shard.pass ≡ None) pool.new.metaslabs.shards.items }
    ensures arms { OthersAre slot errors result pool.old pool.new }
{
    if errors > 0 || !all_have_others(&pool.metaslabs.shards, slot) {
        return Ok(None);
    }
    match detach_and_sync(pool, slot) {
        Ok(group) => Ok(Some(group)),
        Err(why) => Err(why),
    }
}

/// Whether the last arm of a slot is a leaf with an empty log in each of some metaslabs, and has others beside it.
fn all_have_others<R: Rack, A: Area>(shards: &[Shard<R, A>], slot: u32) -> bool
    requires { Each (λ (shard : Shard R A). slot < shard.slots.geometry.spec.children) shards.now }
    ensures all { IsTrue result → Each (λ (shard : Shard R A). HasOthers shard.slots slot) shards.now }
    ensures none { result ≡ false → (m : ℕ) × (shard : Shard R A) × (slice_get shards.now m ≡ Some shard) × (HasOthers shard.slots slot → ⊥) }
{
    for shard in shards {
        if !has_others(&shard.slots, slot) {
            return false;
        }
    }
    true
}

/// Whether the last arm of a slot is a leaf with an empty log, and has others beside it.
fn has_others(slots: &Slots, slot: u32) -> bool
    requires { slot < slots.now.geometry.spec.children }
    ensures { IsTrue result ↔ HasOthers slots.now slot }
{
    let arms = slots.arms(slot);
    if arms.len() < 2 {
        return false;
    }
    let last = arms.len() - 1;
    let at = ArmAt {
        slot,
        arm: last as u32,
    };
    match arms[last].kind {
        ArmKind::Leaf => slots.log(at).count() == 0,
        ArmKind::Spare => false,
    }
}

/// Takes all arms of a slot but the last out of it in all metaslabs, where nothing keeps them there, and commits the group
/// without them.
fn detach_and_sync<R: Rack, A: Area>(pool: &mut Pool<R, A>, slot: u32) -> Result<u64, SyncFault>
    requires whole { IsWhole R.Rack A.Area pool.old }
    requires idle { AreIdle pool.old.metaslabs.shards.items }
    requires passes { HasNoPass pool.old }
    requires go { SomeGo slot pool.old }
    ensures whole { IsWhole R.Rack A.Area pool.new }
    ensures same { SamePointers pool.old pool.new }
    ensures later { AreasLater A.faults pool.old pool.new }
    ensures cause { IsErrOf result SyncFault.Shelf → AreaRose A.faults pool.old pool.new }
    ensures passes { HasNoPass pool.new }
    ensures carries { (x : State) (others : List ArmName) (last : ArmName) → Represents R.Rack A.Area pool.old x → AllMayLose slot others last pool.old
        → CarriesOut R.Rack A.Area pool.new x (GoDoes x slot others result) }
    ensures alone { OnOk result (AllAlone slot pool.new) }
{
    if let Err(why) = detach_but_last(pool, slot) {
        return Err(why);
    }
    match pool.sync() {
        Ok(synced) => Ok(synced.group),
        Err(why) => Err(why),
    }
}

/// Takes the arms of a slot out of it in all metaslabs, from the first on, until the last is alone.
fn detach_but_last<R: Rack, A: Area>(pool: &mut Pool<R, A>, slot: u32) -> Result<(), SyncFault>
    requires whole { IsWhole R.Rack A.Area pool.old }
    requires idle { AreIdle pool.old.metaslabs.shards.items }
    requires passes { HasNoPass pool.old }
    requires go { SomeGo slot pool.old }
    ensures whole { IsWhole R.Rack A.Area pool.new }
    ensures objects { pool.new.own.objects ≡ pool.old.own.objects }
    ensures later { AreasLater A.faults pool.old pool.new }
    ensures not_shelf { IsErrOf result SyncFault.Shelf → ⊥ }
    ensures passes { HasNoPass pool.new }
    ensures carries { (x : State) (others : List ArmName) (last : ArmName) → Represents R.Rack A.Area pool.old x → AllMayLose slot others last pool.old
        → CarriesOut R.Rack A.Area pool.new x (Phase x (balance.GoAll x.geometry x.perms slot others) (end_of result)) }
    ensures alone { OnOk result ((others : List ArmName) (last : ArmName) → AllMayLose slot others last pool.old → AllMayLose slot [] last pool.new) }
{
    for _gone in 1..pool.metaslabs.shards[0].slots.arms(slot).len() {
        if let Err(why) = detach_first(pool, slot) {
            return Err(why);
        }
    }
    Ok(())
}

/// Takes the first arm of a slot out of it in all metaslabs, where nothing keeps it there.
fn detach_first<R: Rack, A: Area>(pool: &mut Pool<R, A>, slot: u32) -> Result<(), SyncFault>
    requires whole { IsWhole R.Rack A.Area pool.old }
    requires idle { AreIdle pool.old.metaslabs.shards.items }
    requires passes { HasNoPass pool.old }
    requires go { SomeGo slot pool.old }
    ensures whole { IsWhole R.Rack A.Area pool.new }
    ensures objects { pool.new.own.objects ≡ pool.old.own.objects }
    ensures later { AreasLater A.faults pool.old pool.new }
    ensures not_shelf { IsErrOf result SyncFault.Shelf → ⊥ }
    ensures passes { HasNoPass pool.new }
    ensures idle { OnOk result (AreIdle pool.new.metaslabs.shards.items) }
    ensures carries { (x : State) (n : ArmName) (others : List ArmName) (last : ArmName) → Represents R.Rack A.Area pool.old x → AllMayLose slot (n ∷ others) last pool.old
        → CarriesOut R.Rack A.Area pool.new x (Phase x (OneGoes x.geometry x.perms slot n) (end_of result)) }
    ensures gone { OnOk result ((n : ArmName) (others : List ArmName) (last : ArmName) → AllMayLose slot (n ∷ others) last pool.old → AllMayLose slot others last pool.new) }
{
    if let Err(fault) = reserve_all(pool, Need::Event) {
        return Err(stopped(fault));
    }
    let arm = first_arm(&pool.metaslabs.shards[0].slots, slot);
    detach_all(&mut pool.metaslabs.shards, ArmAt { slot, arm: 0 }, arm);
    Ok(())
}

/// The first arm of a slot.
fn first_arm(slots: &Slots, slot: u32) -> ArmName
    requires sound { IsTable slots.now }
    requires slot { slot < slots.now.geometry.spec.children }
    requires there { IsThere slots.now (record { slot = slot; arm = 0 }) }
    ensures { IsNamed slots.now (record { slot = slot; arm = 0 }) result }
{
    name_of(slots.arms(slot)[0])
}

/// An arm by what it is. Spares have numbers of 32 bits; what a greater one gives is of no account.
fn name_of(arm: Arm) -> ArmName
    ensures { (arm.kind ≡ Spare → arm.number < 2 ^ 32) → result ≡ slots_of.name_of arm }
{
    match arm.kind {
        ArmKind::Leaf => ArmName::Leaf { leaf: arm.number },
        ArmKind::Spare => ArmName::Spare {
            spare: u32::try_from(arm.number).unwrap_or(0),
        },
    }
}
