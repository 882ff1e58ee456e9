ghost use Rattle.std.specs.Prelude.{◌≡◌, ◌<◌, ℕ, true, false};
ghost use Rattle.draid_machine.specs.After as after;
ghost use Rattle.draid_machine.specs.Names.{has_number};
ghost use Rattle.draid_machine.specs.Step.{HealsThere};
ghost use Rattle.draid_machine.specs.declared.names.ArmName.{ArmName};
ghost use Rattle.draid_scrubs.specs.Wholes.{AreColumnsPatched, AreColumnsWhole, AreOn, IsArmPatched, IsArmWhole};
ghost use Rattle.draid_world.specs.World.{core_of, site_layout};

use crate::patches::was_written;
use draid_machine::{ArmName, Held, Patched};
use draid_names::NUMBERS;
use draid_passes::any_answers;
use draid_world::arms::names_of;
use draid_world::{Site, Tables};

/// Whether a leaf that answers keeps a block's column for an arm of its slot.
fn heals_there(site: &Site, tables: &Tables, held: Held, leaf: u64) -> bool
    requires first { held.first < NUMBERS }
    ensures yes { result ≡ true → HealsThere (site_layout site.now) (core_of tables.now) held leaf }
    ensures no { result ≡ false → HealsThere (site_layout site.now) (core_of tables.now) held leaf → ⊥ }
{
    for column in 0..site.geometry.g {
        let names = names_of(&tables.order, site.slot_of(held.first, column) as usize);
        if any_answers(site, tables, names, held.first, leaf) {
            return true;
        }
    }
    false
}

/// Whether each leaf of a list answers and keeps a block's column for an arm of its slot.
pub(crate) fn heals_all(site: &Site, tables: &Tables, held: Held, leaves: &[u64]) -> bool
    requires first { held.first < NUMBERS }
    ensures yes { result ≡ true → (leaf : ℕ) → has_number leaves.now leaf ≡ true → HealsThere (site_layout site.now) (core_of tables.now) held leaf }
    ensures no { result ≡ false → ((leaf : ℕ) → has_number leaves.now leaf ≡ true → HealsThere (site_layout site.now) (core_of tables.now) held leaf) → ⊥ }
{
    for leaf in leaves {
        if !heals_there(site, tables, held, *leaf) {
            return false;
        }
    }
    true
}

/// Whether all rows of a column on an arm were written.
fn rows_written(patched: &[Patched], column: u32, arm: ArmName, rows: u32) -> bool
    ensures yes { result ≡ true → (r : ℕ) → r < rows → after.was_written patched.now column arm r ≡ true }
    ensures no { result ≡ false → ((r : ℕ) → r < rows → after.was_written patched.now column arm r ≡ true) → ⊥ }
{
    for row in 0..rows {
        if !was_written(patched, column, arm, row) {
            return false;
        }
    }
    true
}

/// Whether a column on an arm that isn't clean was written, where it answers.
fn is_patched(
    site: &Site,
    tables: &Tables,
    held: Held,
    patched: &[Patched],
    column: u32,
    arm: ArmName,
) -> bool
    requires first { held.first < NUMBERS }
    ensures yes { result ≡ true → IsArmPatched (site_layout site.now) (core_of tables.now) held patched.now column arm }
    ensures no { result ≡ false → IsArmPatched (site_layout site.now) (core_of tables.now) held patched.now column arm → ⊥ }
{
    if !site.answers(tables, arm, held.first) || !tables.is_logged(arm, held.birth) {
        return true;
    }
    rows_written(patched, column, arm, held.stripes)
}

/// Whether a column was written on each arm of a list that isn't clean and answers.
fn names_patched(
    site: &Site,
    tables: &Tables,
    held: Held,
    patched: &[Patched],
    column: u32,
    names: &[ArmName],
) -> bool
    requires first { held.first < NUMBERS }
    ensures yes { result ≡ true → AreOn (IsArmPatched (site_layout site.now) (core_of tables.now) held patched.now column) names.now }
    ensures no { result ≡ false → AreOn (IsArmPatched (site_layout site.now) (core_of tables.now) held patched.now column) names.now → ⊥ }
{
    for name in names {
        if !is_patched(site, tables, held, patched, column, *name) {
            return false;
        }
    }
    true
}

/// Whether each column was written on each arm that isn't clean and answers.
pub(crate) fn all_patched(site: &Site, tables: &Tables, held: Held, patched: &[Patched]) -> bool
    requires first { held.first < NUMBERS }
    ensures yes { result ≡ true → AreColumnsPatched (site_layout site.now) (core_of tables.now) held patched.now (site_layout site.now).columns }
    ensures no { result ≡ false → AreColumnsPatched (site_layout site.now) (core_of tables.now) held patched.now (site_layout site.now).columns → ⊥ }
{
    for column in 0..site.geometry.g {
        let names = names_of(&tables.order, site.slot_of(held.first, column) as usize);
        if !names_patched(site, tables, held, patched, column, names) {
            return false;
        }
    }
    true
}

/// Whether an arm that is clean for a block answers and no call on it failed.
fn arm_is_whole(site: &Site, tables: &Tables, held: Held, failed: &[u64], arm: ArmName) -> bool
    requires first { held.first < NUMBERS }
    ensures yes { result ≡ true → IsArmWhole (site_layout site.now) (core_of tables.now) held failed.now arm }
    ensures no { result ≡ false → IsArmWhole (site_layout site.now) (core_of tables.now) held failed.now arm → ⊥ }
{
    if tables.is_logged(arm, held.birth) {
        return true;
    }
    site.answers(tables, arm, held.first) && !site.fails(tables, failed, arm, held.first)
}

/// Whether each arm of a list that is clean for a block answers and no call on it failed.
fn names_are_whole(
    site: &Site,
    tables: &Tables,
    held: Held,
    failed: &[u64],
    names: &[ArmName],
) -> bool
    requires first { held.first < NUMBERS }
    ensures yes { result ≡ true → AreOn (IsArmWhole (site_layout site.now) (core_of tables.now) held failed.now) names.now }
    ensures no { result ≡ false → AreOn (IsArmWhole (site_layout site.now) (core_of tables.now) held failed.now) names.now → ⊥ }
{
    for name in names {
        if !arm_is_whole(site, tables, held, failed, *name) {
            return false;
        }
    }
    true
}

/// Whether the landing of a block is a whole one.
pub(crate) fn is_whole(site: &Site, tables: &Tables, held: Held, failed: &[u64]) -> bool
    requires first { held.first < NUMBERS }
    ensures yes { result ≡ true → AreColumnsWhole (site_layout site.now) (core_of tables.now) held failed.now (site_layout site.now).columns }
    ensures no { result ≡ false → AreColumnsWhole (site_layout site.now) (core_of tables.now) held failed.now (site_layout site.now).columns → ⊥ }
{
    for column in 0..site.geometry.g {
        let names = names_of(&tables.order, site.slot_of(held.first, column) as usize);
        if !names_are_whole(site, tables, held, failed, names) {
            return false;
        }
    }
    true
}
