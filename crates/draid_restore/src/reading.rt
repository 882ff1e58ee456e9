//! The arms of a block are read for a loan.
ghost use Rattle.std.specs.Prelude.{◌≡◌, ◌<◌, ◌≤◌, ◌+◌, ◌*◌, [], ℕ, IsTrue, None, Option, Some, false, length, slice_get, vec_capacity, vec_len};
ghost use Rattle.draid_columns.specs.Columns.{HasRows, RowsStand};
ghost use Rattle.draid_names.specs.Faults.{Rose};
ghost use Rattle.draid_rack.specs.Rack.{OnTold};
ghost use Rattle.draid_shard.specs.Calls.{CountsFailed};
ghost use Rattle.draid_shard.specs.Spots.{FitSpots, rows_for};
ghost use Rattle.draid_shard.specs.Losing.{failed_if};
ghost use Rattle.draid_restore.specs.Reading.{ReadsSpots, SetsColumn, column_if};

use crate::choosing::is_reading;
use draid_columns::{Rows, read_rows};
use draid_rack::Rack;
use draid_shard::{Extent, Spot};

/// The readings of a block that count, a buffer for the others, buffers that no column uses, and the leaves on which calls
/// failed.
#[derive(Drop)]
pub(crate) struct Readings {
    pub columns: Vec<Option<Vec<u8>>>,
    pub spare: Vec<u8>,
    pub buffers: Vec<Vec<u8>>,
    pub failed: Vec<u64>,
}

/// Reads each arm of a block that answers.
pub(crate) fn read_spots<R: Rack>(rack: &mut R, spots: &[Spot], extent: Extent, lent: &mut Readings)
    requires spots { FitSpots (R.shape rack.old) extent.count extent.size (length lent.old.columns.items) spots.now }
    requires rest { ReadsSpots extent.count extent.size spots.now 0 (R.told rack.old) lent.old.columns.items lent.old.failed.items }
    requires none { lent.old.failed.items ≡ [] }
    requires spare { length lent.old.spare.items ≡ extent.count * extent.size }
    requires room { length spots.now ≤ vec_capacity lent.old.failed }
    ensures reads { ReadsSpots extent.count extent.size spots.now (length spots.now) (R.told rack.old) lent.new.columns.items lent.new.failed.items }
    ensures many { length lent.new.columns.items ≡ length lent.old.columns.items }
    ensures told { R.told rack.new ≡ R.told rack.old }
    ensures shape { R.shape rack.new ≡ R.shape rack.old }
    ensures counts { CountsFailed lent.new.failed.items (R.faults rack.old) (R.faults rack.new) }
{
    for i in 0..spots.len() {
        read_next(rack, spots, i, extent, lent);
    }
}

/// Reads the next one.
fn read_next<R: Rack>(rack: &mut R, spots: &[Spot], i: usize, extent: Extent, lent: &mut Readings)
    requires spots { FitSpots (R.shape rack.old) extent.count extent.size (length lent.old.columns.items) spots.now }
    requires less { i < length spots.now }
    requires before { ReadsSpots extent.count extent.size spots.now i (R.told rack.old) lent.old.columns.items lent.old.failed.items }
    requires spare { length lent.old.spare.items ≡ extent.count * extent.size }
    requires room { vec_len lent.old.failed < vec_capacity lent.old.failed }
    ensures reads { ReadsSpots extent.count extent.size spots.now (i + 1) (R.told rack.old) lent.new.columns.items lent.new.failed.items }
    ensures many { length lent.new.columns.items ≡ length lent.old.columns.items }
    ensures spare { length lent.new.spare.items ≡ length lent.old.spare.items }
    ensures told { R.told rack.new ≡ R.told rack.old }
    ensures shape { R.shape rack.new ≡ R.shape rack.old }
    ensures counts { (first : Option ℕ → ℕ) → CountsFailed lent.old.failed.items first (R.faults rack.old) → CountsFailed lent.new.failed.items first (R.faults rack.new) }
    ensures few { vec_len lent.new.failed ≤ vec_len lent.old.failed + 1 }
    ensures room { vec_capacity lent.new.failed ≡ vec_capacity lent.old.failed }
{
    let spot = spots[i];
    let rows = rows_of(spot, extent);
    if !is_reading(spots, spot) {
        read_noted(rack, rows, &mut lent.spare, &mut lent.failed);
        return;
    }
    let Some(mut bytes) = take_column(&mut lent.columns, spot.column) else {
        unreachable!()
    };
    let done = read_noted(rack, rows, &mut bytes, &mut lent.failed);
    put_column(&mut lent.columns, spot.column, bytes, done);
}

/// The rows of a block's column on an arm.
fn rows_of(spot: Spot, extent: Extent) -> Rows
    ensures { result ≡ rows_for extent.count extent.size spot }
{
    Rows {
        leaf: spot.leaf,
        first: spot.first,
        count: extent.count,
        size: extent.size,
    }
}

/// Reads rows into a buffer, and notes their leaf where a call fails. Whether none did.
fn read_noted<R: Rack>(rack: &mut R, rows: Rows, bytes: &mut Vec<u8>, failed: &mut Vec<u64>) -> bool
    requires there { HasRows (R.shape rack.old) rows }
    requires long { length bytes.old.items ≡ rows.count * rows.size }
    requires room { vec_len failed.old < vec_capacity failed.old }
    ensures read { IsTrue result → OnTold (R.told rack.old) (λ x. RowsStand rows x.reads bytes.new.items rows.count) }
    ensures whole { length bytes.new.items ≡ length bytes.old.items }
    ensures failed { failed.new.items ≡ failed_if result rows.leaf failed.old.items }
    ensures told { R.told rack.new ≡ R.told rack.old }
    ensures shape { R.shape rack.new ≡ R.shape rack.old }
    ensures counts { (first : Option ℕ → ℕ) → CountsFailed failed.old.items first (R.faults rack.old) → CountsFailed failed.new.items first (R.faults rack.new) }
    ensures few { vec_len failed.new ≤ vec_len failed.old + 1 }
    ensures room { vec_capacity failed.new ≡ vec_capacity failed.old }
{
    if read_whole(rack, rows, bytes) {
        return true;
    }
    failed.push_reserved(rows.leaf);
    false
}

/// Reads rows into a buffer. Whether no call failed.
fn read_whole<R: Rack>(rack: &mut R, rows: Rows, bytes: &mut Vec<u8>) -> bool
    requires there { HasRows (R.shape rack.old) rows }
    requires long { length bytes.old.items ≡ rows.count * rows.size }
    ensures read { IsTrue result → OnTold (R.told rack.old) (λ x. RowsStand rows x.reads bytes.new.items rows.count) }
    ensures whole { length bytes.new.items ≡ length bytes.old.items }
    ensures told { R.told rack.new ≡ R.told rack.old }
    ensures shape { R.shape rack.new ≡ R.shape rack.old }
    ensures later { (who : Option ℕ) → R.faults rack.old who ≤ R.faults rack.new who }
    ensures cause { result ≡ false → Rose (R.faults rack.old (Some rows.leaf)) (R.faults rack.new (Some rows.leaf)) }
{
    read_rows(rack, rows, bytes).is_ok()
}

/// Takes what is at the place of a column.
fn take_column(columns: &mut Vec<Option<Vec<u8>>>, column: u32) -> Option<Vec<u8>>
    requires { column < length columns.old.items }
    ensures taken { slice_get columns.old.items column ≡ Some result }
    ensures left { SetsColumn columns.old.items columns.new.items column None }
{
    columns[column as usize].take()
}

/// Puts a reading in its place, if it was read.
fn put_column(columns: &mut Vec<Option<Vec<u8>>>, column: u32, bytes: Vec<u8>, done: bool)
    requires taken { slice_get columns.old.items column ≡ Some None }
    ensures { SetsColumn columns.old.items columns.new.items column (column_if done bytes) }
{
    if done {
        columns[column as usize] = Some(bytes);
    }
}
