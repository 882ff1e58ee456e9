ghost use Rattle.std.specs.Prelude.{◌≡◌, ◌+◌, ◌<◌, Ok, Some, None, true, false, IfSome, IfNone, IfOk, OnOk};
ghost use Rattle.draid_machine.specs.After as after;
ghost use Rattle.draid_machine.specs.State.{State};
ghost use Rattle.draid_machine.specs.declared.names.Held.{Held};
ghost use Rattle.draid_machine.specs.Step.{LandStripeStep};
ghost use Rattle.draid_rebuilds.specs.Stripes.{MayLandStripe, mended_pass, mended_state};
ghost use Rattle.draid_passes.specs.Left.{AreShort};
ghost use Rattle.draid_world.specs.World.{core_of, held_in, loan_of, pass_of, site_layout, state_of};

use crate::landings::{may_mend_all, unsourced};
use crate::mending::{doubted, landed, mended};
use draid_machine::Held;
use draid_names::{NUMBERS, NoMemory, PassKind};
use draid_passes::{kept, landing};
use draid_world::sets::{drop_all, put_all};
use draid_world::{Lent, Site, World, WorldPass, capped};
use std::alloc::Global;

/// The segments of a loan's stripe are written where calls didn't fail, and stand as their sources do.
fn mend_segments(
    alloc: Global,
    site: &Site,
    world: &mut World,
    pass: &WorldPass,
    loan: &Lent,
    held: Held,
    failed: &[u64],
) -> Result<(), NoMemory>
    requires short { held.first + held.stripes < NUMBERS }
    requires stripe { loan.now.stripe < NUMBERS }
    ensures { OnOk result (state_of world.new ≡ mended_state (site_layout site.now) (state_of world.old) (pass_of pass.now) (loan_of loan.now) held failed.now) }
{
    let all = mended(alloc, site, &world.tables, pass, loan, held)?;
    let written = landed(alloc, site, &world.tables, &all, loan.stripe, failed)?;
    let doubts = doubted(alloc, site, &world.tables, &world.aside, loan, &written)?;
    drop_all(&mut world.present, &all);
    put_all(&mut world.present, &written)?;
    drop_all(&mut world.aside, &all);
    put_all(&mut world.aside, &doubts)?;
    Ok(())
}

/// The pass after the landing of a loan's stripe: without the targets that missed it.
fn pass_after(
    alloc: Global,
    site: &Site,
    world: &World,
    pass: WorldPass,
    stripe: u64,
    failed: &[u64],
) -> Result<WorldPass, NoMemory>
    requires stripe { stripe < NUMBERS }
    ensures { IfOk result (λ next. pass_of next ≡ mended_pass (site_layout site.now) (core_of world.now.tables) (pass_of pass) stripe failed.now) }
{
    let targets = kept(alloc, site, &world.tables, &pass.targets, stripe, failed)?;
    let lost = (pass.targets.len() - targets.len()) as u64;
    Ok(WorldPass {
        number: pass.number,
        kind: pass.kind,
        targets,
        max: pass.max,
        next: stripe + 1,
        errors: capped(pass.errors, lost),
        running: pass.running,
    })
}

/// Whether a loan of a rebuild may land while calls fail on these leaves, and its block.
fn landing_stripe(
    site: &Site,
    world: &World,
    pass: u64,
    serial: u64,
    failed: &[u64],
) -> Option<Held>
    requires stripe { IfSome world.now.loan (λ loan. loan.stripe < NUMBERS) }
    ensures some { IfSome result (λ h. MayLandStripe (site_layout site.now) (state_of world.now) pass serial failed.now h) }
    ensures none { IfNone result ((h : Held) → MayLandStripe (site_layout site.now) (state_of world.now) pass serial failed.now h → ⊥) }
{
    let Some(held) = landing(world, PassKind::Rebuild, pass, serial) else {
        return None;
    };
    let Some(found) = &world.tables.pass else {
        return None;
    };
    let Some(loan) = &world.loan else {
        return None;
    };
    if !may_mend_all(site, &world.tables, found, loan, failed) {
        return None;
    }
    Some(held)
}

/// A loan of a rebuild comes back, where that is legal.
pub fn land_stripe(
    alloc: Global,
    site: &Site,
    world: &mut World,
    pass: u64,
    serial: u64,
    failed: &[u64],
) -> Result<bool, NoMemory>
    requires short { AreShort (held_in world.old.tables.held.entries) }
    requires stripe { IfSome world.old.loan (λ loan. loan.stripe < NUMBERS) }
    ensures legal { result ≡ Ok true → LandStripeStep (site_layout site.now) (state_of world.old) pass serial failed.now (state_of world.new) }
    ensures illegal { result ≡ Ok false → (new : State) → LandStripeStep (site_layout site.now) (state_of world.old) pass serial failed.now new → ⊥ }
{
    let Some(held) = landing_stripe(site, world, pass, serial, failed) else {
        return Ok(false);
    };
    let Some(found) = world.tables.pass.take() else {
        return Ok(false);
    };
    let Some(loan) = world.loan.take() else {
        return Ok(false);
    };
    if unsourced(site, &loan) > site.geometry.spec.parity {
        world.tables.pass = Some(WorldPass {
            next: loan.stripe + 1,
            errors: capped(found.errors, 1),
            ..found
        });
        return Ok(true);
    }
    mend_segments(alloc, site, world, &found, &loan, held, failed)?;
    world.tables.pass = Some(pass_after(alloc, site, world, found, loan.stripe, failed)?);
    Ok(true)
}
