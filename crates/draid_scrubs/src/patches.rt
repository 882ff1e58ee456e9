ghost use Rattle.std.specs.Prelude.{◌≡◌, ◌<◌, ℕ, true, false};
ghost use Rattle.draid_machine.specs.After as after;
ghost use Rattle.draid_machine.specs.Names.{has_number};
ghost use Rattle.draid_machine.specs.declared.event.Patched.{Patched};
ghost use Rattle.draid_machine.specs.declared.names.ArmName.{ArmName};
ghost use Rattle.draid_scrubs.specs.Patches.{ArmStands, EachPart, PartStands, RowStands, landed_row, wrote_row};
ghost use Rattle.draid_world.specs.World.{core_of, site_layout};

use draid_machine::{ArmName, Held, Patched};
use draid_names::NUMBERS;
use draid_world::arms::{is_among, is_same, names_of};
use draid_world::{Site, Tables};

/// Whether a list has a row.
fn has_row(rows: &[u32], row: u32) -> bool
    ensures { result ≡ has_number rows.now row }
{
    for found in rows {
        if *found == row {
            return true;
        }
    }
    false
}

/// Whether a part of what was written has a row of a column on an arm.
fn wrote(part: &Patched, column: u32, arm: ArmName, row: u32) -> bool
    ensures { result ≡ wrote_row part.now column arm row }
{
    part.column == column && is_same(part.arm, arm) && has_row(&part.written, row)
}

/// Whether a part of what landed has a row of a column on an arm.
fn lands(part: &Patched, column: u32, arm: ArmName, row: u32) -> bool
    ensures { result ≡ landed_row part.now column arm row }
{
    part.column == column && is_same(part.arm, arm) && has_row(&part.landed, row)
}

/// Whether a row of a column on an arm was written.
pub(crate) fn was_written(patched: &[Patched], column: u32, arm: ArmName, row: u32) -> bool
    ensures { result ≡ after.was_written patched.now column arm row }
{
    for part in patched {
        if wrote(part, column, arm, row) {
            return true;
        }
    }
    false
}

/// Whether a row of a column on an arm landed.
pub(crate) fn has_landed(patched: &[Patched], column: u32, arm: ArmName, row: u32) -> bool
    ensures { result ≡ after.has_landed patched.now column arm row }
{
    for part in patched {
        if lands(part, column, arm, row) {
            return true;
        }
    }
    false
}

/// Whether a column of a block may be written on an arm: it is in the column's slot and answers.
fn arm_stands(site: &Site, tables: &Tables, held: Held, column: u32, arm: ArmName) -> bool
    requires first { held.first < NUMBERS }
    ensures yes { result ≡ true → ArmStands (site_layout site.now) (core_of tables.now) held column arm }
    ensures no { result ≡ false → ArmStands (site_layout site.now) (core_of tables.now) held column arm → ⊥ }
{
    if column >= site.geometry.g {
        return false;
    }
    let names = names_of(&tables.order, site.slot_of(held.first, column) as usize);
    is_among(names, arm) && site.answers(tables, arm, held.first)
}

/// Whether a row of a column on an arm may have been written: it lands unless the arm's leaf failed.
fn row_stands(
    site: &Site,
    tables: &Tables,
    held: Held,
    failed: &[u64],
    patched: &[Patched],
    part: &Patched,
    row: u32,
) -> bool
    requires first { held.first < NUMBERS }
    ensures yes { result ≡ true → RowStands (site_layout site.now) (core_of tables.now) held failed.now patched.now part.now.column part.now.arm row }
    ensures no { result ≡ false → RowStands (site_layout site.now) (core_of tables.now) held failed.now patched.now part.now.column part.now.arm row → ⊥ }
{
    if row >= held.stripes || !arm_stands(site, tables, held, part.column, part.arm) {
        return false;
    }
    site.fails(tables, failed, part.arm, held.first)
        || has_landed(patched, part.column, part.arm, row)
}

/// Whether each row of a part that was written may have been.
fn rows_stand(
    site: &Site,
    tables: &Tables,
    held: Held,
    failed: &[u64],
    patched: &[Patched],
    part: &Patched,
) -> bool
    requires first { held.first < NUMBERS }
    ensures yes { result ≡ true → (r : ℕ) → has_number part.now.written.items r ≡ true → RowStands (site_layout site.now) (core_of tables.now) held failed.now patched.now part.now.column part.now.arm r }
    ensures no { result ≡ false → ((r : ℕ) → has_number part.now.written.items r ≡ true → RowStands (site_layout site.now) (core_of tables.now) held failed.now patched.now part.now.column part.now.arm r) → ⊥ }
{
    let rows = part.written.as_slice();
    for row in rows {
        if !row_stands(site, tables, held, failed, patched, part, *row) {
            return false;
        }
    }
    true
}

/// Whether each row of a part that landed was written.
fn landed_were_written(patched: &[Patched], part: &Patched) -> bool
    ensures yes { result ≡ true → (r : ℕ) → has_number part.now.landed.items r ≡ true → after.was_written patched.now part.now.column part.now.arm r ≡ true }
    ensures no { result ≡ false → ((r : ℕ) → has_number part.now.landed.items r ≡ true → after.was_written patched.now part.now.column part.now.arm r ≡ true) → ⊥ }
{
    let rows = part.landed.as_slice();
    for row in rows {
        if !was_written(patched, part.column, part.arm, *row) {
            return false;
        }
    }
    true
}

/// Whether a part may have been written, and no more of it landed.
fn part_stands(
    site: &Site,
    tables: &Tables,
    held: Held,
    failed: &[u64],
    patched: &[Patched],
    part: &Patched,
) -> bool
    requires first { held.first < NUMBERS }
    ensures yes { result ≡ true → PartStands (site_layout site.now) (core_of tables.now) held failed.now patched.now part.now }
    ensures no { result ≡ false → PartStands (site_layout site.now) (core_of tables.now) held failed.now patched.now part.now → ⊥ }
{
    rows_stand(site, tables, held, failed, patched, part) && landed_were_written(patched, part)
}

/// Whether each part may have been written, and no more landed.
pub(crate) fn parts_stand(
    site: &Site,
    tables: &Tables,
    held: Held,
    failed: &[u64],
    patched: &[Patched],
) -> bool
    requires first { held.first < NUMBERS }
    ensures yes { result ≡ true → EachPart (PartStands (site_layout site.now) (core_of tables.now) held failed.now patched.now) patched.now }
    ensures no { result ≡ false → EachPart (PartStands (site_layout site.now) (core_of tables.now) held failed.now patched.now) patched.now → ⊥ }
{
    for part in patched {
        if !part_stands(site, tables, held, failed, patched, part) {
            return false;
        }
    }
    true
}
