ghost use Rattle.std.specs.Prelude.{◌≡◌, ◌<◌, ◌≤◌, ◌^◌, All, IfOk, length, string_bytes};
ghost use Rattle.draid_names.specs.declared.arm.ArmKind.TheVariants.{Spare};
ghost use Rattle.draid_names.specs.declared.numbers.TheConstants.{NUMBERS};
ghost use Rattle.draid_perm.specs.declared.perms.Perms.{Perms};
ghost use Rattle.draid_slots.specs.Table.{IsTable, arms_of};
ghost use Rattle.draid_shard.specs.Fits.{Valid};
ghost use Rattle.draid_session.specs.Status.{spare_name_in};
ghost use Rattle.draid_machine.specs.Names.{named};
ghost use Rattle.draid_views.specs.Views.{AreArmsTold, AreSlotViews, IsArmTold, IsLogCount, LogsAre, TellFirst};

use draid_area::Area;
use draid_names::{Arm, ArmKind, NoMemory};
use draid_rack::Rack;
use draid_report::ArmView;
use draid_shard::Shard;
use draid_slots::Slots;
use draid_spec::{Geometry, spare_name};
use std::alloc::{AllocError, Global};

/// What is told of the arms of each slot, as the first shard has them.
pub fn slot_views<R: Rack, A: Area>(
    alloc: Global,
    shards: &[Shard<R, A>],
    geometry: Geometry,
) -> Result<Vec<Vec<ArmView>>, NoMemory>
    requires some { 0 < length shards.now }
    requires few { length shards.now ≤ 64 }
    requires valid { All (Valid R.Rack) shards.now }
    requires layout { All (λ (shard : Shard R A). shard.geometry ≡ geometry) shards.now }
    ensures many { IfOk result (λ views. length views.items ≡ geometry.spec.children) }
    ensures first { IfOk result (λ views. TellFirst geometry shards.now views.items) }
    ensures slots { IfOk result (λ views. AreSlotViews geometry shards.now views.items) }
{
    let mut views = Vec::new(alloc);
    let slots = &shards[0].slots;
    for slot in 0..slots.children() {
        views.push(arm_views(alloc, shards, geometry, slots, slot)?)?;
    }
    Ok(views)
}

/// What is told of the arms of one.
fn arm_views<R: Rack, A: Area>(
    alloc: Global,
    shards: &[Shard<R, A>],
    geometry: Geometry,
    slots: &Slots,
    slot: u32,
) -> Result<Vec<ArmView>, NoMemory>
    requires few { length shards.now ≤ 64 }
    requires sound { IsTable slots.now }
    requires slot { slot < slots.now.geometry.spec.children }
    ensures { IfOk result (λ views. AreArmsTold geometry shards.now (arms_of slots.now slot) views.items) }
{
    let mut views = Vec::new(alloc);
    let arms = slots.arms(slot);
    for arm in arms {
        views.push(arm_view(alloc, shards, geometry, *arm)?)?;
    }
    Ok(views)
}

/// What is told of an arm, which is one of all shards.
fn arm_view<R: Rack, A: Area>(
    alloc: Global,
    shards: &[Shard<R, A>],
    geometry: Geometry,
    arm: Arm,
) -> Result<ArmView, NoMemory>
    requires few { length shards.now ≤ 64 }
    requires small { arm.kind ≡ Spare → arm.number < 2 ^ 32 }
    ensures arm { IfOk result (λ view. view.arm ≡ arm) }
    ensures told { IfOk result (IsArmTold geometry shards.now) }
{
    let spare_name = name_if_spare(alloc, geometry, arm)?;
    let logged = logged_groups(shards, arm);
    Ok(ArmView {
        arm,
        spare_name,
        logged,
    })
}

/// The name of a spare; empty for a leaf.
fn name_if_spare(alloc: Global, geometry: Geometry, arm: Arm) -> Result<String, AllocError>
    requires { arm.kind ≡ Spare → arm.number < 2 ^ 32 }
    ensures { IfOk result (λ name. (perms : Perms) → string_bytes name ≡ spare_name_in geometry perms arm.kind arm.number) }
{
    match arm.kind {
        ArmKind::Leaf => Ok(String::new(alloc)),
        ArmKind::Spare => spare_name(alloc, geometry.spec, arm.number as u32),
    }
}

/// How many groups stand in an arm's logs, over all shards.
fn logged_groups<R: Rack, A: Area>(shards: &[Shard<R, A>], arm: Arm) -> u64
    requires { length shards.now ≤ 64 }
    ensures { LogsAre shards.now (named arm.kind arm.number) result }
{
    let mut logged = 0;
    for shard in shards {
        logged += logged_in(&shard.slots, arm);
    }
    logged
}

/// How many groups stand in the arm's log in these slots.
fn logged_in(slots: &Slots, arm: Arm) -> u64
    ensures count { IsLogCount slots.now arm.kind arm.number result }
    ensures low { result ≤ NUMBERS }
{
    match slots.find(arm.kind, arm.number) {
        Some(at) => slots.log(at).count(),
        None => 0,
    }
}
