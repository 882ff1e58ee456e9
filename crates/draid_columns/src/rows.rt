ghost use Rattle.std.specs.Prelude.{◌≡◌, ◌*◌, OnErr, OnOk, Some, length};
ghost use Rattle.draid_columns.specs.Columns.{HasRows, RowsStand, StopsAtRow, WritesRows, in_rows};
ghost use Rattle.draid_rack.specs.Rack.{OnBothTold, Counts, OnTold};
ghost use Rattle.draid_rack.specs.Moments.{LeavesTold};

use draid_names::Failed;
use draid_rack::Rack;

/// The rows of a column on one leaf: `count` sectors of `size` bytes, from the sector `first` on.
#[derive(Clone, Copy)]
pub struct Rows {
    pub leaf: u64,
    pub first: u64,
    pub count: u64,
    pub size: usize,
}

/// Writes the rows of a column one after another, and stops where one fails.
pub fn write_rows<R: Rack>(rack: &mut R, rows: Rows, column: &[u8]) -> Result<(), Failed>
    requires there { HasRows (R.shape rack.old) rows }
    requires long { length column.now ≡ rows.count * rows.size }
    ensures ok { OnOk result (OnBothTold (R.told rack.old) (R.told rack.new)
        (WritesRows rows column.now rows.count rows.count)) }
    ensures err { OnErr result (StopsAtRow rows column.now (R.told rack.old) (R.told rack.new)) }
    ensures leaves { LeavesTold (in_rows rows) (R.told rack.old) (R.told rack.new) }
    ensures shape { R.shape rack.new ≡ R.shape rack.old }
    ensures cause { Counts (Some rows.leaf) result (R.faults rack.old) (R.faults rack.new) }
{
    for row in 0..rows.count {
        let at = row as usize * rows.size;
        rack.write(rows.leaf, rows.first + row, &column[at..at + rows.size])?;
    }
    Ok(())
}

/// Reads the rows of a column one after another, and stops where one fails.
pub fn read_rows<R: Rack>(rack: &mut R, rows: Rows, into: &mut [u8]) -> Result<(), Failed>
    requires there { HasRows (R.shape rack.old) rows }
    requires long { length into.old ≡ rows.count * rows.size }
    ensures read { OnOk result (OnTold (R.told rack.old) (λ x. RowsStand rows x.reads into.new rows.count)) }
    ensures whole { length into.new ≡ length into.old }
    ensures told { R.told rack.new ≡ R.told rack.old }
    ensures shape { R.shape rack.new ≡ R.shape rack.old }
    ensures cause { Counts (Some rows.leaf) result (R.faults rack.old) (R.faults rack.new) }
{
    for row in 0..rows.count {
        let at = row as usize * rows.size;
        rack.read(rows.leaf, rows.first + row, &mut into[at..at + rows.size])?;
    }
    Ok(())
}
