ghost use Rattle.std.specs.Prelude.{◌≡◌, ◌<◌, true, false, ℕ};
ghost use Rattle.draid_machine.specs.Names.{has_number};
ghost use Rattle.draid_machine.specs.State.{State};
ghost use Rattle.draid_machine.specs.Step.{FetchStep};
ghost use Rattle.draid_steps.specs.Reads.{IsRead, ReadsFrom};
ghost use Rattle.draid_world.specs.World.{AreLow, core_of, site_layout, state_of};

use crate::blocks::is_live;
use draid_machine::{Held, Key};
use draid_names::NUMBERS;
use draid_world::tables::find;
use draid_world::{Site, Tables, World};

/// Whether a leaf is that of the reading arm of a column.
fn reads_from(site: &Site, tables: &Tables, held: Held, column: u32, leaf: u64) -> bool
    requires stripe { held.first < NUMBERS }
    requires column { column < site.now.geometry.g }
    ensures yes { result ≡ true → ReadsFrom (site_layout site.now) (core_of tables.now) held column leaf }
    ensures no { result ≡ false → ReadsFrom (site_layout site.now) (core_of tables.now) held column leaf → ⊥ }
{
    match site.reading(tables, held, column) {
        Some(name) => site.lies_at(tables, name, held.first, leaf),
        None => false,
    }
}

/// Whether a leaf is that of the reading arm of some column.
fn is_read(site: &Site, tables: &Tables, held: Held, leaf: u64) -> bool
    requires stripe { held.first < NUMBERS }
    ensures yes { result ≡ true → IsRead (site_layout site.now) (core_of tables.now) held leaf }
    ensures no { result ≡ false → IsRead (site_layout site.now) (core_of tables.now) held leaf → ⊥ }
{
    for column in 0..site.geometry.g {
        if reads_from(site, tables, held, column, leaf) {
            return true;
        }
    }
    false
}

/// Whether each leaf of a list is that of the reading arm of some column.
fn are_read(site: &Site, tables: &Tables, held: Held, leaves: &[u64]) -> bool
    requires stripe { held.first < NUMBERS }
    ensures yes { result ≡ true → (leaf : ℕ) → has_number leaves.now leaf ≡ true → IsRead (site_layout site.now) (core_of tables.now) held leaf }
    ensures no { result ≡ false → ((leaf : ℕ) → has_number leaves.now leaf ≡ true → IsRead (site_layout site.now) (core_of tables.now) held leaf) → ⊥ }
{
    for leaf in leaves {
        if !is_read(site, tables, held, *leaf) {
            return false;
        }
    }
    true
}

/// Whether a block may be read while calls fail on these leaves.
pub fn may_fetch(site: &Site, world: &World, key: Key, failed: &[u64]) -> bool
    requires low { AreLow (core_of world.now.tables) }
    ensures legal { result ≡ true → FetchStep (site_layout site.now) (state_of world.now) key failed.now (state_of world.now) }
    ensures illegal { result ≡ false → (new : State) → FetchStep (site_layout site.now) (state_of world.now) key failed.now new → ⊥ }
{
    let Some(held) = find(&world.tables.held, key) else {
        return false;
    };
    if !is_live(held.stage) {
        return false;
    }
    are_read(site, &world.tables, held, failed)
}
