//! Which reading of a column counts, and the arms that were read.
ghost use Rattle.std.specs.Prelude.{◌≡◌, ◌<◌, ◌≤◌, ◌==◌, [], ℕ, false, IsTrue, None, Option, Some, find, length, option_map, slice_index_or, unwrap_or, vec_capacity};
ghost use Rattle.draid_restore.specs.Reading.{chosen_of, is_clean_of, is_of, read_of, reading_of};
ghost use Rattle.draid_shard.specs.declared.loan.Spot.{Spot};

use draid_machine::ArmName;
use draid_shard::{ReadArm, Spot, has_failed};

/// The first clean arm of a column.
fn first_clean(spots: &[Spot], column: u32) -> Option<Spot>
    ensures { result ≡ find (is_clean_of column) spots.now }
{
    for spot in spots {
        if spot.column == column && spot.clean {
            return Some(*spot);
        }
    }
    None
}

/// The first arm of a column.
fn first_of(spots: &[Spot], column: u32) -> Option<Spot>
    ensures { result ≡ find (is_of column) spots.now }
{
    for spot in spots {
        if spot.column == column {
            return Some(*spot);
        }
    }
    None
}

/// The arm of a column whose reading counts: the first clean one, else the first.
fn reading_spot(spots: &[Spot], column: u32) -> Option<Spot>
    ensures { result ≡ reading_of spots.now column }
{
    if let Some(spot) = first_clean(spots, column) {
        return Some(spot);
    }
    first_of(spots, column)
}

/// Whether the reading of an arm counts.
pub(crate) fn is_reading(spots: &[Spot], spot: Spot) -> bool
    ensures { result ≡ unwrap_or (option_map (λ (other : Spot). other.leaf == spot.leaf) (reading_of spots.now spot.column)) false }
{
    match reading_spot(spots, spot.column) {
        Some(other) => other.leaf == spot.leaf,
        None => false,
    }
}

/// Whether a column has an arm that answers.
pub(crate) fn has_reading(spots: &[Spot], column: u32) -> bool
    ensures yes { IsTrue result → (spot : Spot) × (reading_of spots.now column ≡ Some spot) }
    ensures no { result ≡ false → reading_of spots.now column ≡ None }
{
    reading_spot(spots, column).is_some()
}

/// The arm from which a column was taken, where calls failed on these leaves.
fn chosen_arm(spots: &[Spot], failed: &[u64], column: u32) -> Option<ArmName>
    ensures { result ≡ chosen_of spots.now failed.now column }
{
    let spot = reading_spot(spots, column)?;
    if has_failed(failed, spot.leaf) {
        return None;
    }
    Some(spot.arm)
}

/// Names of each of so many columns the arm from which it was taken.
pub(crate) fn name_chosen(
    spots: &[Spot],
    failed: &[u64],
    columns: u32,
    chosen: &mut Vec<Option<ArmName>>,
)
    requires empty { chosen.old.items ≡ [] }
    requires room { columns ≤ vec_capacity chosen.old }
    ensures many { length chosen.new.items ≡ columns }
    ensures each { (c : ℕ) → c < columns → slice_index_or chosen.new.items c None ≡ chosen_of spots.now failed.now c }
{
    for column in 0..columns {
        chosen.push_reserved(chosen_arm(spots, failed, column));
    }
}

/// Names the arms that were read.
pub(crate) fn name_read(spots: &[Spot], failed: &[u64], read: &mut Vec<ReadArm>)
    requires empty { read.old.items ≡ [] }
    requires room { length spots.now ≤ vec_capacity read.old }
    ensures { read.new.items ≡ read_of spots.now failed.now }
{
    for spot in spots {
        if !has_failed(failed, spot.leaf) {
            read.push_reserved(ReadArm {
                column: spot.column,
                arm: spot.arm,
            });
        }
    }
}
