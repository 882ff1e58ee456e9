//! The arms of a restored block, one after another.
ghost use Rattle.std.specs.Prelude.{◌≡◌, ◌+◌, ◌*◌, ◌≤◌, ◌<◌, ◌^◌, ◌++◌, ◌∷◌, [], ℕ, List, Option, IsSome, length, true, vec_capacity, vec_len};
ghost use Rattle.draid_block.specs.Blocks.{column_len};
ghost use Rattle.draid_columns.specs.Columns.{HasRows};
ghost use Rattle.draid_parity.specs.Columns.{column_at};
ghost use Rattle.draid_shard.specs.Calls.{CountsFailed};
ghost use Rattle.draid_shard.specs.Loans.{AreRooms, IsRowRoom};
ghost use Rattle.draid_rack.specs.Rack.{OnBothTold, OnTold};
ghost use Rattle.draid_shard.specs.Spots.{FitSpots, rows_for};
ghost use Rattle.draid_heal.specs.Arms.{FitsRoom, FlushedOn, HealsArm, HealsArms, IsRoomOf, ListsArms, Puts, landed_if};
ghost use Rattle.draid_shard.specs.Losing.{failed_if};
ghost use Rattle.draid_heal.specs.Rows.{Differed, FailsOn, ListsRows};

use crate::rows::heal_rows;
use draid_block::Encoded;
use draid_columns::Rows;
use draid_machine::Patched;
use draid_rack::Rack;
use draid_shard::{Extent, LandingRoom, Spot};

/// Flushes the leaf of an arm. Where that fails nothing landed there.
fn flush_arm<R: Rack>(rack: &mut R, leaf: u64, part: &mut Patched, failed: &mut Vec<u64>) -> bool
    requires there { IsSome ((R.shape rack.old).leaves leaf) }
    requires room { vec_len failed.old < vec_capacity failed.old }
    ensures told { FlushedOn leaf result (R.told rack.old) (R.told rack.new) }
    ensures landed { part.new.landed.items ≡ landed_if result part.old.landed.items }
    ensures written { part.new.written.items ≡ part.old.written.items }
    ensures failed { failed.new.items ≡ failed_if result leaf failed.old.items }
    ensures counts { (first : Option ℕ → ℕ) → CountsFailed failed.old.items first (R.faults rack.old) → CountsFailed failed.new.items first (R.faults rack.new) }
    ensures named { (part.new.column ≡ part.old.column) × (part.new.arm ≡ part.old.arm) }
    ensures shape { R.shape rack.new ≡ R.shape rack.old }
    ensures room { vec_capacity failed.new ≡ vec_capacity failed.old }
    ensures few { vec_len failed.new ≤ vec_len failed.old + 1 }
{
    if rack.flush(leaf).is_ok() {
        return true;
    }
    part.landed.clear();
    failed.push_reserved(leaf);
    false
}

/// Puts the rows of a column right on an arm, and flushes its leaf.
fn heal_arm<R: Rack>(
    rack: &mut R,
    rows: Rows,
    clean: bool,
    column: &[u8],
    into: &mut [u8],
    part: &mut Patched,
    failed: &mut Vec<u64>,
)
    requires there { HasRows (R.shape rack.old) rows }
    requires few { rows.count < 2 ^ 32 }
    requires long { length column.now ≡ rows.count * rows.size }
    requires into { length into.old ≡ rows.size }
    requires room { IsRowRoom rows.count part.old }
    requires failed { vec_len failed.old + (2 * rows.count + 1) ≤ vec_capacity failed.old }
    ensures heals { OnBothTold (R.told rack.old) (R.told rack.new) (HealsArm rows column.now part.new.written.items part.new.landed.items failed.new.items) }
    ensures lists { ListsRows rows clean rows.count part.new.written.items part.new.landed.items failed.new.items }
    ensures needed { clean ≡ true → OnTold (R.told rack.old) (Differed rows column.now part.new.written.items) }
    ensures fails { FailsOn rows.leaf failed.old.items failed.new.items }
    ensures counts { (first : Option ℕ → ℕ) → CountsFailed failed.old.items first (R.faults rack.old) → CountsFailed failed.new.items first (R.faults rack.new) }
    ensures named { (part.new.column ≡ part.old.column) × (part.new.arm ≡ part.old.arm) }
    ensures shape { R.shape rack.new ≡ R.shape rack.old }
    ensures into { length into.new ≡ length into.old }
    ensures room { vec_capacity failed.new ≡ vec_capacity failed.old }
    ensures few { vec_len failed.new ≤ vec_len failed.old + (2 * rows.count + 1) }
{
    heal_rows(rack, rows, clean, column, into, part, failed);
    flush_arm(rack, rows.leaf, part, failed);
}

/// Takes the room for what is noted of an arm.
fn take_room(rooms: &mut Vec<Patched>, count: u64, spot: Spot) -> Patched
    requires rooms { AreRooms count rooms.old.items }
    requires some { 0 < vec_len rooms.old }
    ensures room { IsRoomOf count spot result }
    ensures rooms { AreRooms count rooms.new.items }
    ensures len { vec_len rooms.new + 1 ≡ vec_len rooms.old }
{
    let _ = count;
    let Some(mut part) = rooms.pop() else {
        unreachable!()
    };
    part.column = spot.column;
    part.arm = spot.arm;
    part
}

/// Puts the columns of a restored block right on its arms that answer, and notes for each what was written, what landed,
/// and each call that failed.
pub(crate) fn heal_arms<R: Rack>(
    rack: &mut R,
    block: &Encoded,
    extent: Extent,
    room: &mut LandingRoom,
)
    requires spots { FitSpots (R.shape rack.old) extent.count extent.size (block.now.cut.parity + block.now.cut.ndata) room.old.spots.items }
    requires few { extent.count < 2 ^ 32 }
    requires long { column_len block.now.cut (length block.now.bytes) ≡ extent.count * extent.size }
    requires room { FitsRoom extent.count extent.size room.old }
    ensures heals { OnBothTold (R.told rack.old) (R.told rack.new) (HealsArms extent.count extent.size room.old.spots.items room.new.patched.items block.now.columns (length room.old.spots.items) room.new.failed.items) }
    ensures lists { ListsArms extent.count extent.size room.old.spots.items room.new.patched.items (length room.old.spots.items) room.new.failed.items }
    ensures counts { CountsFailed room.new.failed.items (R.faults rack.old) (R.faults rack.new) }
    ensures shape { R.shape rack.new ≡ R.shape rack.old }
    ensures spots { room.new.spots ≡ room.old.spots }
{
    for i in 0..room.spots.len() {
        let spot = room.spots[i];
        heal_next(rack, spot, block, extent, room);
    }
}

/// Puts one right on the next arm.
fn heal_next<R: Rack>(
    rack: &mut R,
    spot: Spot,
    block: &Encoded,
    extent: Extent,
    room: &mut LandingRoom,
)
    requires there { HasRows (R.shape rack.old) (rows_for extent.count extent.size spot) }
    requires column { spot.column < block.now.cut.parity + block.now.cut.ndata }
    requires few { extent.count < 2 ^ 32 }
    requires long { column_len block.now.cut (length block.now.bytes) ≡ extent.count * extent.size }
    requires into { length room.old.sector.items ≡ extent.size }
    requires rooms { AreRooms extent.count room.old.parts.items }
    requires some { 0 < vec_len room.old.parts }
    requires patched { vec_len room.old.patched < vec_capacity room.old.patched }
    requires failed { vec_len room.old.failed + (2 * extent.count + 1) ≤ vec_capacity room.old.failed }
    ensures puts { (part : Patched) × (room.new.patched.items ≡ room.old.patched.items ++ part ∷ []) × Puts (rows_for extent.count extent.size spot) spot part (column_at block.now.columns spot.column) room.old.failed.items room.new.failed.items (R.told rack.old) (R.told rack.new) }
    ensures counts { (first : Option ℕ → ℕ) → CountsFailed room.old.failed.items first (R.faults rack.old) → CountsFailed room.new.failed.items first (R.faults rack.new) }
    ensures shape { R.shape rack.new ≡ R.shape rack.old }
    ensures spots { room.new.spots ≡ room.old.spots }
    ensures into { length room.new.sector.items ≡ length room.old.sector.items }
    ensures rooms { AreRooms extent.count room.new.parts.items }
    ensures left { vec_len room.new.parts + 1 ≡ vec_len room.old.parts }
    ensures room { (vec_capacity room.new.failed ≡ vec_capacity room.old.failed) × (vec_capacity room.new.patched ≡ vec_capacity room.old.patched) }
    ensures few { length room.new.failed.items ≤ length room.old.failed.items + (2 * extent.count + 1) }
{
    let mut part = take_room(&mut room.parts, extent.count, spot);
    let rows = Rows {
        leaf: spot.leaf,
        first: spot.first,
        count: extent.count,
        size: extent.size,
    };
    let column = block.column(spot.column);
    heal_arm(
        rack,
        rows,
        spot.clean,
        column,
        &mut room.sector,
        &mut part,
        &mut room.failed,
    );
    room.patched.push_reserved(part);
}
