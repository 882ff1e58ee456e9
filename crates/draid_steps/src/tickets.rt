ghost use Rattle.std.specs.Prelude.{◌≡◌, ◌<◌, true, false, IfOk};
ghost use Rattle.draid_names.specs.Numbers as numbers;
ghost use Rattle.draid_machine.specs.State.{State};
ghost use Rattle.draid_machine.specs.Step.{BeginStep, HoldsFewer, IsDue, IsEnabled};
ghost use Rattle.draid_world.specs.World.{AreLow, core_of, site_layout, state_of};

use crate::room::is_lowest;
use draid_machine::{Held, Key};
use draid_names::{NUMBERS, NoMemory, PassKind, most_held};
use draid_world::tables::{enter, find};
use draid_world::{Site, Tables, World};

/// Whether the pass, if any, isn't a rebuild.
fn is_enabled(tables: &Tables) -> bool
    ensures yes { result ≡ true → IsEnabled (core_of tables.now) }
    ensures no { result ≡ false → IsEnabled (core_of tables.now) → ⊥ }
{
    let Some(pass) = &tables.pass else {
        return true;
    };
    match pass.kind {
        PassKind::Heal => true,
        PassKind::Rebuild => false,
    }
}

/// Whether there are fewer blocks and tickets than a metaslab may have in a version.
fn has_room(tables: &Tables, version: u32) -> bool
    ensures yes { result ≡ true → HoldsFewer (core_of tables.now) (numbers.most_held version) }
    ensures no { result ≡ false → HoldsFewer (core_of tables.now) (numbers.most_held version) → ⊥ }
{
    tables.held.len() < most_held(version)
}

/// Whether a group is the open one or the next.
pub(crate) fn is_due(world: &World, group: u64) -> bool
    requires open { world.now.open_group < NUMBERS }
    ensures yes { result ≡ true → IsDue (state_of world.now) group }
    ensures no { result ≡ false → IsDue (state_of world.now) group → ⊥ }
{
    world.open_group <= group && group <= world.open_group + 1
}

/// Opens a ticket, where that is legal.
pub fn begin(site: &Site, world: &mut World, key: Key, held: Held) -> Result<bool, NoMemory>
    requires low { AreLow (core_of world.old.tables) }
    requires group { world.old.open_group < NUMBERS }
    requires first { held.first < NUMBERS }
    ensures legal { IfOk result (λ b. b ≡ true → BeginStep (site_layout site.now) (state_of world.old) key held (state_of world.new)) }
    ensures illegal { IfOk result (λ b. b ≡ false → (new : State) → BeginStep (site_layout site.now) (state_of world.old) key held new → ⊥) }
{
    let tables = &world.tables;
    if !is_enabled(tables) {
        return Ok(false);
    }
    if !has_room(tables, world.version) {
        return Ok(false);
    }
    if find(&tables.held, key).is_some() {
        return Ok(false);
    }
    if held.stripes == 0 {
        return Ok(false);
    }
    if !is_due(world, held.birth) {
        return Ok(false);
    }
    if !is_lowest(site, tables, held.first, held.stripes) {
        return Ok(false);
    }
    enter(&mut world.tables.held, key, held)?;
    Ok(true)
}
