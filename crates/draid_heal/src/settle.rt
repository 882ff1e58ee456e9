//! A whole landing ends the harm of what it put right.
ghost use Rattle.std.specs.Prelude.{◌≡◌, ◌==◌, ◌+◌, ◌*◌, ◌≤◌, ◌<◌, ◌^◌, ℕ, Bool, List, Option, Some, length, slice_get, true, false};
ghost use Rattle.draid_columns.specs.Columns.{HasRows};
ghost use Rattle.std.specs.List.{list_any};
ghost use Rattle.draid_machine.specs.Names.{has_number};
ghost use Rattle.draid_rack.specs.Rack.{OnBothTold, OnTold, Told};
ghost use Rattle.draid_shard.specs.Spots.{rows_for};
ghost use Rattle.draid_heal.specs.Settle.{AreFine, FirmArms, SettlesUpto};
ghost use Rattle.draid_heal.specs.Stands.{SettlesArms, is_settled_row};

use draid_machine::Patched;
use draid_rack::Rack;
use draid_shard::{Extent, Spot, has_failed};

/// Whether a list of rows has one.
fn has_row(rows: &[u32], row: u32) -> bool
    ensures { result ≡ list_any (λ other. other == row) rows.now }
{
    rows.iter().any(|other| *other == row)
}

/// Whether no call failed on the leaf of a clean arm.
pub(crate) fn are_fine(spots: &[Spot], failed: &[u64]) -> bool
    ensures yes { result ≡ true → AreFine spots.now failed.now }
    ensures no { result ≡ false → AreFine spots.now failed.now → ⊥ }
{
    for i in 0..spots.len() {
        let spot = spots[i];
        if spot.clean && has_failed(failed, spot.leaf) {
            return false;
        }
    }
    true
}

/// Ends the harm of the rows on clean arms, and of what landed on the others.
pub(crate) fn settle_arms<R: Rack>(
    rack: &mut R,
    spots: &[Spot],
    patched: &[Patched],
    extent: Extent,
)
    requires there { (k : ℕ) (spot : Spot) → slice_get spots.now k ≡ Some spot → HasRows (R.shape rack.old) (rows_for extent.count extent.size spot) }
    requires few { extent.count < 2 ^ 32 }
    requires same { length patched.now ≡ length spots.now }
    requires firm { OnTold (R.told rack.old) (FirmArms extent.count spots.now patched.now) }
    ensures settles { OnBothTold (R.told rack.old) (R.told rack.new) (SettlesArms extent.count spots.now patched.now true) }
    ensures shape { R.shape rack.new ≡ R.shape rack.old }
    ensures later { (who : Option ℕ) → R.faults rack.old who ≤ R.faults rack.new who }
{
    for i in 0..spots.len() {
        settle_arm(rack, spots, patched, extent, i);
    }
}

/// On one arm.
fn settle_arm<R: Rack>(rack: &mut R, spots: &[Spot], patched: &[Patched], extent: Extent, i: usize)
    requires there { (k : ℕ) (spot : Spot) → slice_get spots.now k ≡ Some spot → HasRows (R.shape rack.old) (rows_for extent.count extent.size spot) }
    requires few { extent.count < 2 ^ 32 }
    requires same { length patched.now ≡ length spots.now }
    requires less { i < length spots.now }
    requires firm { OnTold (R.told rack.old) (FirmArms extent.count spots.now patched.now) }
    ensures settles { (start : Option Told) → OnBothTold start (R.told rack.old) (SettlesUpto extent.count spots.now patched.now i 0) → OnBothTold start (R.told rack.new) (SettlesUpto extent.count spots.now patched.now (i + 1) 0) }
    ensures firm { OnTold (R.told rack.new) (FirmArms extent.count spots.now patched.now) }
    ensures shape { R.shape rack.new ≡ R.shape rack.old }
    ensures later { (who : Option ℕ) → R.faults rack.old who ≤ R.faults rack.new who }
{
    for row in 0..extent.count {
        settle_row(rack, spots, patched, extent, i, row);
    }
}

/// One row of it.
fn settle_row<R: Rack>(
    rack: &mut R,
    spots: &[Spot],
    patched: &[Patched],
    extent: Extent,
    i: usize,
    row: u64,
)
    requires there { (k : ℕ) (spot : Spot) → slice_get spots.now k ≡ Some spot → HasRows (R.shape rack.old) (rows_for extent.count extent.size spot) }
    requires few { extent.count < 2 ^ 32 }
    requires same { length patched.now ≡ length spots.now }
    requires less { i < length spots.now }
    requires row { row < extent.count }
    requires firm { OnTold (R.told rack.old) (FirmArms extent.count spots.now patched.now) }
    ensures settles { (start : Option Told) → OnBothTold start (R.told rack.old) (SettlesUpto extent.count spots.now patched.now i row) → OnBothTold start (R.told rack.new) (SettlesUpto extent.count spots.now patched.now i (row + 1)) }
    ensures firm { OnTold (R.told rack.new) (FirmArms extent.count spots.now patched.now) }
    ensures shape { R.shape rack.new ≡ R.shape rack.old }
    ensures later { (who : Option ℕ) → R.faults rack.old who ≤ R.faults rack.new who }
{
    let spot = spots[i];
    let must = is_settled(spot, &patched[i], row as u32);
    if must {
        rack.settle(spot.leaf, spot.first + row);
    }
}

/// Whether a row is settled on an arm.
fn is_settled(spot: Spot, part: &Patched, row: u32) -> bool
    ensures { result ≡ is_settled_row spot part.now row }
{
    spot.clean || has_row(&part.landed, row)
}
