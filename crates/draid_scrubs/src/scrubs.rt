ghost use Rattle.std.specs.Prelude.{◌≡◌, ◌+◌, ◌-◌, ◌<◌, Ok, Some, None, true, false, IfSome, IfNone, IfOk, OnOk};
ghost use Rattle.draid_machine.specs.After as after;
ghost use Rattle.draid_machine.specs.State.{State};
ghost use Rattle.draid_machine.specs.Step.{LandBlockStep, LandsBlock, Patches};
ghost use Rattle.draid_machine.specs.declared.names.Held.{Held};
ghost use Rattle.draid_passes.specs.Left.{AreShort};
ghost use Rattle.draid_scrubs.specs.Scrubs.{MayLandBlock, healed_pass, healed_state};
ghost use Rattle.draid_world.specs.World.{core_of, held_in, loan_of, pass_of, site_layout, state_of};

use crate::healing::{doubted, landed, of_block, written};
use crate::patches::parts_stand;
use crate::wholes::{all_patched, heals_all, is_whole};
use draid_machine::{Held, Patched};
use draid_names::{NUMBERS, NoMemory, PassKind};
use draid_passes::{block_segments, kept, landing};
use draid_world::sets::{drop_all, put_all};
use draid_world::{Lent, Site, Tables, World, WorldPass, capped};
use std::alloc::Global;

/// Whether a scrub may have written this of a readable block while calls failed on these leaves.
fn may_heal(site: &Site, tables: &Tables, held: Held, failed: &[u64], patched: &[Patched]) -> bool
    requires first { held.first < NUMBERS }
    ensures yes { result ≡ true → Patches (site_layout site.now) (core_of tables.now) held failed.now patched.now }
    ensures no { result ≡ false → Patches (site_layout site.now) (core_of tables.now) held failed.now patched.now → ⊥ }
{
    if !parts_stand(site, tables, held, failed, patched) {
        return false;
    }
    if !all_patched(site, tables, held, patched) {
        return false;
    }
    heals_all(site, tables, held, failed)
}

/// Whether a block may land so: of an unreadable one nothing is written.
fn may_land(
    site: &Site,
    tables: &Tables,
    held: Held,
    failed: &[u64],
    patched: &[Patched],
    unreadable: bool,
) -> bool
    requires first { held.first < NUMBERS }
    ensures yes { result ≡ true → LandsBlock (site_layout site.now) (core_of tables.now) held failed.now patched.now unreadable }
    ensures no { result ≡ false → LandsBlock (site_layout site.now) (core_of tables.now) held failed.now patched.now unreadable → ⊥ }
{
    if unreadable {
        return failed.is_empty() && patched.is_empty();
    }
    may_heal(site, tables, held, failed, patched)
}

/// The block of a scrub's loan that may land so.
fn landing_block(
    site: &Site,
    world: &World,
    pass: u64,
    serial: u64,
    failed: &[u64],
    patched: &[Patched],
    unreadable: bool,
) -> Option<Held>
    requires short { AreShort (held_in world.now.tables.held.entries) }
    ensures some { IfSome result (λ h. MayLandBlock (site_layout site.now) (state_of world.now) pass serial failed.now patched.now unreadable h) }
    ensures none { IfNone result ((h : Held) → MayLandBlock (site_layout site.now) (state_of world.now) pass serial failed.now patched.now unreadable h → ⊥) }
{
    let Some(held) = landing(world, PassKind::Heal, pass, serial) else {
        return None;
    };
    if !may_land(site, &world.tables, held, failed, patched, unreadable) {
        return None;
    }
    Some(held)
}

/// A whole landing: what landed is present, and only what may be wrong stays in doubt.
fn heal_whole(
    alloc: Global,
    site: &Site,
    world: &mut World,
    loan: &Lent,
    held: Held,
    patched: &[Patched],
) -> Result<(), NoMemory>
    requires short { held.first + held.stripes < NUMBERS }
    ensures { OnOk result (state_of world.new ≡ healed_state (site_layout site.now) (state_of world.old) (loan_of loan.now) held patched.now true) }
{
    let all = block_segments(alloc, site, &world.tables, loan.key, held)?;
    let good = landed(alloc, patched, &all)?;
    let doubts = doubted(alloc, &world.tables, held.birth, patched, &all)?;
    let present = of_block(alloc, &world.present, loan.key)?;
    put_all(&mut world.aside, &present)?;
    drop_all(&mut world.aside, &all);
    put_all(&mut world.aside, &doubts)?;
    put_all(&mut world.present, &good)?;
    Ok(())
}

/// Any other landing: what was written is in doubt.
fn heal_part(
    alloc: Global,
    site: &Site,
    world: &mut World,
    loan: &Lent,
    held: Held,
    patched: &[Patched],
) -> Result<(), NoMemory>
    requires short { held.first + held.stripes < NUMBERS }
    ensures { OnOk result (state_of world.new ≡ healed_state (site_layout site.now) (state_of world.old) (loan_of loan.now) held patched.now false) }
{
    let all = block_segments(alloc, site, &world.tables, loan.key, held)?;
    let good = landed(alloc, patched, &all)?;
    let doubts = written(alloc, patched, &all)?;
    put_all(&mut world.aside, &doubts)?;
    put_all(&mut world.present, &good)?;
    Ok(())
}

/// The pass after the landing of a block: without the targets that missed it.
fn pass_after(
    alloc: Global,
    site: &Site,
    world: &World,
    pass: WorldPass,
    held: Held,
    failed: &[u64],
) -> Result<WorldPass, NoMemory>
    requires short { held.first + held.stripes < NUMBERS }
    ensures { IfOk result (λ next. pass_of next ≡ healed_pass (site_layout site.now) (core_of world.now.tables) (pass_of pass) held failed.now) }
{
    let targets = kept(
        alloc,
        site,
        &world.tables,
        &pass.targets,
        held.first,
        failed,
    )?;
    Ok(WorldPass {
        number: pass.number,
        kind: pass.kind,
        targets,
        max: pass.max,
        next: held.first + u64::from(held.stripes),
        errors: capped(pass.errors, failed.len() as u64),
        running: pass.running,
    })
}

/// A readable block of a scrub's loan lands.
fn heal(
    alloc: Global,
    site: &Site,
    world: &mut World,
    loan: &Lent,
    held: Held,
    patched: &[Patched],
    whole: bool,
) -> Result<(), NoMemory>
    requires short { held.first + held.stripes < NUMBERS }
    ensures { OnOk result (state_of world.new ≡ healed_state (site_layout site.now) (state_of world.old) (loan_of loan.now) held patched.now whole) }
{
    if whole {
        return heal_whole(alloc, site, world, loan, held, patched);
    }
    heal_part(alloc, site, world, loan, held, patched)
}

/// A loan of a scrub comes back, where that is legal.
pub fn land_block(
    alloc: Global,
    site: &Site,
    world: &mut World,
    pass: u64,
    serial: u64,
    failed: &[u64],
    patched: &[Patched],
    unreadable: bool,
) -> Result<bool, NoMemory>
    requires short { AreShort (held_in world.old.tables.held.entries) }
    ensures legal { result ≡ Ok true → LandBlockStep (site_layout site.now) (state_of world.old) pass serial failed.now patched.now unreadable (state_of world.new) }
    ensures illegal { result ≡ Ok false → (new : State) → LandBlockStep (site_layout site.now) (state_of world.old) pass serial failed.now patched.now unreadable new → ⊥ }
{
    let Some(held) = landing_block(site, world, pass, serial, failed, patched, unreadable) else {
        return Ok(false);
    };
    let Some(found) = world.tables.pass.take() else {
        return Ok(false);
    };
    let Some(loan) = world.loan.take() else {
        return Ok(false);
    };
    let whole = is_whole(site, &world.tables, held, failed);
    if unreadable {
        world.tables.pass = Some(WorldPass {
            next: held.first + u64::from(held.stripes),
            errors: capped(found.errors, 1),
            ..found
        });
        return Ok(true);
    }
    heal(alloc, site, world, &loan, held, patched, whole)?;
    world.tables.pass = Some(pass_after(alloc, site, world, found, held, failed)?);
    Ok(true)
}
