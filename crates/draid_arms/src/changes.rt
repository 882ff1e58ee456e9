ghost use Rattle.std.specs.Prelude.{◌≡◌, ◌<◌, true, false, [], Some, None, IfOk, OnOk};
ghost use Rattle.draid_arms.specs.Moves.{core_before};
ghost use Rattle.draid_machine.specs.After as after;
ghost use Rattle.draid_machine.specs.Arms as arms;
ghost use Rattle.draid_machine.specs.Names.{has_name};
ghost use Rattle.draid_machine.specs.State as state;
ghost use Rattle.draid_machine.specs.Step.{AttachStep, DetachStep};
ghost use Rattle.draid_machine.specs.declared.names.ArmName.{ArmName};
ghost use Rattle.draid_names.specs.declared.pass_kind.PassKind.TheVariants.{Rebuild};
ghost use Rattle.draid_steps.specs.Columns.{AreCounted};
ghost use Rattle.draid_world.specs.World.{AreLow, core_of, pass_of, site_layout, state_of};

use crate::keeping::{held_of, keep_lost};
use crate::moves::{moved_of, renew_arms};
use crate::rules::{may_attach, may_detach, may_replan};
use crate::slots::{join, last_group, leave, new_arm, set_gone};
use draid_machine::ArmName;
use draid_names::{LAST_NUMBER, NUMBERS, NoMemory, PassKind};
use draid_passes::plan;
use draid_world::arms::{copy_order, enter_arm, is_among};
use draid_world::{Detached, Site, World, WorldPass};
use std::alloc::Global;

/// After a change of the slots' arms: spares that moved are renewed, segments that lost their place are kept, and no loan counts. The spares
/// that moved.
fn rearrange(
    alloc: Global,
    site: &Site,
    world: &mut World,
    before: &[Vec<ArmName>],
    last: u64,
) -> Result<Vec<ArmName>, NoMemory>
    requires low { AreLow (core_of world.old.tables) }
    requires last { last < NUMBERS }
    ensures moved { IfOk result (λ moved. (n : ArmName) → has_name moved.items n
        ≡ arms.has_moved (site_layout site.now) (core_before world.old.tables before.now) (core_of world.old.tables) n) }
    ensures made { OnOk result (state_of world.new ≡ after.rearranged_state (site_layout site.now)
        (record (state_of world.old) { core = core_before world.old.tables before.now }) last (core_of world.old.tables)) }
{
    let moved = moved_of(alloc, site, before, &world.tables)?;
    keep_lost(
        site,
        before,
        &world.tables,
        &mut world.kept,
        &world.present,
        world.open_group,
    )?;
    let aside = held_of(alloc, site, &world.tables, &world.kept, &world.aside)?;
    renew_arms(&mut world.tables.arms, &moved, last)?;
    world.aside = aside;
    world.loan = None;
    Ok(moved)
}

/// Takes an arm out of its slot, where that is legal.
pub fn detach(
    alloc: Global,
    site: &Site,
    world: &mut World,
    slot: u32,
    name: ArmName,
) -> Result<bool, NoMemory>
    requires low { AreLow (core_of world.old.tables) }
    requires group { world.old.open_group < NUMBERS }
    requires counted { AreCounted (core_of world.old.tables) }
    ensures legal { IfOk result (λ b. b ≡ true → DetachStep (site_layout site.now) (state_of world.old) slot name (state_of world.new)) }
    ensures illegal { IfOk result (λ b. b ≡ false → (new : state.State) → DetachStep (site_layout site.now) (state_of world.old) slot name new → ⊥) }
{
    if !may_detach(&world.tables, slot as usize, name) {
        return Ok(false);
    }
    let last = last_group(&world.tables.held, world.open_group);
    let before = copy_order(&world.tables.order, alloc)?;
    let gone = Detached {
        slot,
        group: world.open_group,
    };
    set_gone(&mut world.tables.arms, name, gone);
    leave(&mut world.tables.order, slot as usize, name);
    rearrange(alloc, site, world, &before, last)?;
    Ok(true)
}

/// A pass loses targets.
fn lose_targets(pass: &mut WorldPass, lost: &[ArmName])
    ensures { pass_of pass.new ≡ after.lose_targets (has_name lost.now) 0 (pass_of pass.old) }
{
    pass.targets.retain(|name| !is_among(lost, *name));
    pass.errors = pass.errors.min(LAST_NUMBER);
}

/// Plans a rebuild that has a target, where there is no pass.
fn plan_rebuild(alloc: Global, site: &Site, world: &mut World) -> Result<(), NoMemory>
    requires idle { world.old.tables.pass ≡ None }
    requires last { world.old.tables.last < LAST_NUMBER }
    requires open_group { world.old.open_group < LAST_NUMBER }
    requires target { arms.targets_of (site_layout site.now) (core_of world.old.tables) Rebuild ≡ [] → ⊥ }
    ensures { OnOk result (state_of world.new ≡ after.plan_state (state_of world.old) Rebuild (arms.targets_of (site_layout site.now) (core_of world.old.tables) Rebuild)) }
{
    plan(alloc, site, world, PassKind::Rebuild)?;
    Ok(())
}

/// A rebuild is planned again; a scrub loses the targets that moved.
fn replan(alloc: Global, site: &Site, world: &mut World, moved: &[ArmName]) -> Result<(), NoMemory>
    requires rebuild { (p : state.Pass) → (core_of world.old.tables).pass ≡ Some p → p.kind ≡ Rebuild
        → (world.old.tables.last < LAST_NUMBER) × (world.old.open_group < LAST_NUMBER) × (arms.targets_of (site_layout site.now) (core_of world.old.tables) Rebuild ≡ [] → ⊥) }
    ensures { OnOk result (state_of world.new ≡ after.replan (site_layout site.now) (state_of world.old) (has_name moved.now) (core_of world.old.tables).pass) }
{
    let Some(mut pass) = world.tables.pass.take() else {
        return Ok(());
    };
    match pass.kind {
        PassKind::Rebuild => plan_rebuild(alloc, site, world),
        PassKind::Heal => {
            lose_targets(&mut pass, moved);
            world.tables.pass = Some(pass);
            Ok(())
        }
    }
}

/// A fresh arm, which may have missed each group up to one, becomes the last of a slot. The spares that moved.
fn take_in(
    alloc: Global,
    site: &Site,
    world: &mut World,
    slot: u32,
    name: ArmName,
    last: u64,
) -> Result<Vec<ArmName>, NoMemory>
    requires low { AreLow (core_of world.old.tables) }
    requires last { last < NUMBERS }
    ensures moved { IfOk result (λ moved. (n : ArmName) → has_name moved.items n
        ≡ arms.has_moved (site_layout site.now) (core_of world.old.tables) (after.attached_core (core_of world.old.tables) slot name last) n) }
    ensures made { OnOk result (state_of world.new ≡ after.rearranged_state (site_layout site.now) (state_of world.old) last
        (after.attached_core (core_of world.old.tables) slot name last)) }
{
    let before = copy_order(&world.tables.order, alloc)?;
    let arm = new_arm(alloc, last)?;
    enter_arm(&mut world.tables.arms, name, arm)?;
    join(alloc, &mut world.tables.order, slot as usize, name)?;
    rearrange(alloc, site, world, &before, last)
}

/// Puts an arm into a slot, where that is legal.
pub fn attach(
    alloc: Global,
    site: &Site,
    world: &mut World,
    slot: u32,
    name: ArmName,
) -> Result<bool, NoMemory>
    requires low { AreLow (core_of world.old.tables) }
    requires group { world.old.open_group < NUMBERS }
    requires counted { AreCounted (core_of world.old.tables) }
    ensures legal { IfOk result (λ b. b ≡ true → AttachStep (site_layout site.now) (state_of world.old) slot name (state_of world.new)) }
    ensures illegal { IfOk result (λ b. b ≡ false → (new : state.State) → AttachStep (site_layout site.now) (state_of world.old) slot name new → ⊥) }
{
    if !may_attach(site, &world.tables, slot, name) || !may_replan(world) {
        return Ok(false);
    }
    let last = last_group(&world.tables.held, world.open_group);
    let moved = take_in(alloc, site, world, slot, name, last)?;
    replan(alloc, site, world, &moved)?;
    Ok(true)
}
