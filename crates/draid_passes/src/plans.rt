ghost use Rattle.std.specs.Prelude.{◌≡◌, ◌<◌, ◌-◌, Ok, None, true, false};
ghost use Rattle.draid_machine.specs.State.{State};
ghost use Rattle.draid_machine.specs.Step.{PlanStep};
ghost use Rattle.draid_names.specs.declared.pass_kind.PassKind.TheVariants.{Heal, Rebuild};
ghost use Rattle.draid_world.specs.World.{site_layout, state_of};

use crate::logs::fill_logs;
use crate::targets::targets_of;
use draid_names::{LAST_NUMBER, NoMemory, PassKind};
use draid_world::{Site, World, WorldPass};
use std::alloc::Global;

/// Plans a rebuild where there is no pass.
fn plan_rebuild(alloc: Global, site: &Site, world: &mut World) -> Result<bool, NoMemory>
    requires idle { world.old.tables.pass ≡ None }
    requires last { world.old.tables.last < LAST_NUMBER }
    ensures legal { result ≡ Ok true → PlanStep (site_layout site.now) (state_of world.old) Rebuild (state_of world.new) }
    ensures illegal { result ≡ Ok false → (new : State) → PlanStep (site_layout site.now) (state_of world.old) Rebuild new → ⊥ }
{
    let targets = targets_of(alloc, site, &world.tables, PassKind::Rebuild)?;
    if targets.is_empty() || world.open_group >= LAST_NUMBER {
        return Ok(false);
    }
    let max = world.open_group + 1;
    fill_logs(&mut world.tables.arms, &targets, max)?;
    world.tables.last += 1;
    world.tables.pass = Some(WorldPass {
        number: world.tables.last,
        kind: PassKind::Rebuild,
        targets,
        max,
        next: 0,
        errors: 0,
        running: false,
    });
    Ok(true)
}

/// Begins a scrub where there is no pass.
fn plan_heal(alloc: Global, site: &Site, world: &mut World) -> Result<bool, NoMemory>
    requires idle { world.old.tables.pass ≡ None }
    requires last { world.old.tables.last < LAST_NUMBER }
    ensures legal { result ≡ Ok true → PlanStep (site_layout site.now) (state_of world.old) Heal (state_of world.new) }
    ensures never { result ≡ Ok false → ⊥ }
{
    let targets = targets_of(alloc, site, &world.tables, PassKind::Heal)?;
    world.tables.last += 1;
    world.tables.pass = Some(WorldPass {
        number: world.tables.last,
        kind: PassKind::Heal,
        targets,
        max: world.committed,
        next: 0,
        errors: 0,
        running: true,
    });
    Ok(true)
}

/// Plans a pass of a kind, where that is legal.
pub fn plan(alloc: Global, site: &Site, world: &mut World, kind: PassKind) -> Result<bool, NoMemory>
    ensures legal { result ≡ Ok true → PlanStep (site_layout site.now) (state_of world.old) kind (state_of world.new) }
    ensures illegal { result ≡ Ok false → (new : State) → PlanStep (site_layout site.now) (state_of world.old) kind new → ⊥ }
{
    if world.tables.pass.is_some() || world.tables.last >= LAST_NUMBER {
        return Ok(false);
    }
    match kind {
        PassKind::Rebuild => plan_rebuild(alloc, site, world),
        PassKind::Heal => plan_heal(alloc, site, world),
    }
}
