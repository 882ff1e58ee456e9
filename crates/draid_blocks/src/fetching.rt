ghost use Rattle.std.specs.Prelude.{◌≡◌, ◌<◌, ◌≤◌, ◌+◌, ◌*◌, ◌↔◌, ℕ, Option, Some, None, [], Err, IfErr, IfOk, OnErr, OnOk, length, slice_get, vec_capacity, vec_len};
ghost use Rattle.draid_block.specs.Blocks.{cut_of};
ghost use Rattle.draid_block.specs.Solving.{IsFetched};
ghost use Rattle.draid_entries.specs.History.{IsAsked};
ghost use Rattle.draid_shard.specs.Calls.{CountsFailed, SameAreas, SameKit, SameReserve};
ghost use Rattle.draid_blocks.specs.Fetching.{FetchIsWorn, Fetches};
ghost use Rattle.draid_shard.specs.Looks.{IsLive};
ghost use Rattle.draid_shard.specs.Rooms.{IsWornFor};
ghost use Rattle.draid_shard.specs.Changes.{DoesNothing};
ghost use Rattle.draid_shard.specs.Fits.{Valid};
ghost use Rattle.draid_shard.specs.Part.{IsRun};
ghost use Rattle.draid_blocks.specs.Reads.{AreWhole, ReadsColumns, ReadsOn, Replaces, column_after, failed_after};
ghost use Rattle.draid_blocks.specs.Landings.{CountsOn};
ghost use Rattle.draid_shard.specs.Rows.{FitsRows};
ghost use Rattle.draid_shard.specs.States.{part_of};

use crate::fault::FetchFault;
use crate::outcome::Outcome;
use draid_area::Area;
use draid_block::Fetched;
use draid_columns::read_rows;
use draid_entries::{ReserveFault, key_of};
use draid_machine::Event;
use draid_names::{ArmAt, NoMemory, Pointer};
use draid_rack::Rack;
use draid_shard::{ColumnRows, Shard};
use draid_slots::Slots;
use std::alloc::Global;

/// Room for the columns of a block, and for the leaves on which calls fail.
#[derive(Drop)]
struct Room {
    columns: Vec<Option<Vec<u8>>>,
    failed: Vec<u64>,
}

/// Reads the columns of a live block, each from the first arm of its slot that answers and is clean for it, else
/// from the first that answers. A column is nothing where no arm answers, or a read of its leaf failed. A refusal
/// has touched no device.
pub fn fetch<R: Rack, A: Area>(
    shard: &mut Shard<R, A>,
    pointer: &Pointer,
) -> Result<Fetched, FetchFault>
    requires valid { Valid R.Rack shard.old }
    ensures valid { Valid R.Rack shard.new }
    ensures areas { SameAreas shard.old shard.new }
    ensures told { R.told shard.new.rack ≡ R.told shard.old.rack }
    ensures not_live { (result ≡ Err FetchFault.NotLive) ↔ (IsLive shard.old pointer.now → ⊥) }
    ensures worn { IfErr result (FetchIsWorn shard.old) }
    ensures not_worn { OnOk result (IsWornFor shard.old 1 → ⊥) }
    ensures fetched { IfOk result (λ fetched. (fetched.pointer ≡ pointer.now) × IsFetched (cut_of shard.old.geometry) fetched) }
    ensures fetches { IfOk result (Fetches R.Rack shard.old shard.new pointer.now) }
    ensures none { OnErr result (DoesNothing shard.old shard.new) }
    ensures kit { OnErr result (SameKit shard.old shard.new) }
    ensures reserve { SameReserve shard.old shard.new }
    ensures pass { shard.new.pass ≡ shard.old.pass }
{
    if !shard.is_live(pointer) {
        return Err(FetchFault::NotLive);
    }
    match shard.history.ask(1) {
        Ok(()) => {}
        Err(ReserveFault::Worn { events }) => return Err(FetchFault::Worn { events }),
        Err(ReserveFault::NoMemory) => return Err(FetchFault::NoMemory),
    }
    let bytes = pointer.stripes as usize * shard.geometry.props.sector as usize;
    let Ok(room) = room_for(shard.alloc, shard.geometry.g, bytes) else {
        return Err(FetchFault::NoMemory);
    };
    Ok(fetch_into(shard, pointer, room))
}

/// The same of a block that is live, with its event asked for, into room for its columns.
fn fetch_into<R: Rack, A: Area>(shard: &mut Shard<R, A>, pointer: &Pointer, room: Room) -> Fetched
    requires valid { Valid R.Rack shard.old }
    requires live { IsLive shard.old pointer.now }
    requires asked { IsAsked shard.old.history 1 }
    requires columns { length room.columns.items ≡ shard.old.geometry.g }
    requires long { AreWhole room.columns.items (pointer.now.stripes * shard.old.geometry.props.sector) }
    requires failed { room.failed.items ≡ [] }
    requires room { shard.old.geometry.g ≤ vec_capacity room.failed }
    ensures valid { Valid R.Rack shard.new }
    ensures areas { SameAreas shard.old shard.new }
    ensures told { R.told shard.new.rack ≡ R.told shard.old.rack }
    ensures fetches { Fetches R.Rack shard.old shard.new pointer.now result }
    ensures reserve { SameReserve shard.old shard.new }
    ensures pass { shard.new.pass ≡ shard.old.pass }
{
    let Room {
        mut columns,
        mut failed,
    } = room;
    read_columns(shard, pointer, &mut columns, &mut failed);
    let event = Event::Fetch {
        key: key_of(pointer),
        failed,
    };
    shard.history.add_asked(event, 1);
    Fetched {
        pointer: *pointer,
        columns,
    }
}

/// Reads each column of a block into its place. The place of one that isn't read is nothing; the leaf is named
/// where a call on it failed.
fn read_columns<R: Rack, A: Area>(
    shard: &mut Shard<R, A>,
    pointer: &Pointer,
    columns: &mut Vec<Option<Vec<u8>>>,
    failed: &mut Vec<u64>,
)
    requires valid { Valid R.Rack shard.old }
    requires run { IsRun shard.old.geometry pointer.now.first pointer.now.stripes }
    requires none { ReadsColumns (part_of shard.old) shard.old.slots pointer.now 0 (R.told shard.old.rack) columns.old.items failed.old.items }
    requires no_leaf { failed.old.items ≡ [] }
    requires room { shard.old.geometry.g ≤ vec_capacity failed.old }
    ensures rack { shard.new ≡ record shard.old { rack = shard.new.rack } }
    ensures told { R.told shard.new.rack ≡ R.told shard.old.rack }
    ensures shape { R.shape shard.new.rack ≡ R.shape shard.old.rack }
    ensures read { ReadsColumns (part_of shard.old) shard.old.slots pointer.now shard.old.geometry.g (R.told shard.old.rack) columns.new.items failed.new.items }
    ensures counts { CountsFailed failed.new.items (R.faults shard.old.rack) (R.faults shard.new.rack) }
{
    for column in 0..shard.geometry.g {
        read_next(shard, pointer, column, columns, failed);
    }
}

/// Reads the next column of a block into its place.
fn read_next<R: Rack, A: Area>(
    shard: &mut Shard<R, A>,
    pointer: &Pointer,
    column: u32,
    columns: &mut Vec<Option<Vec<u8>>>,
    failed: &mut Vec<u64>,
)
    requires valid { Valid R.Rack shard.old }
    requires run { IsRun shard.old.geometry pointer.now.first pointer.now.stripes }
    requires less { column < shard.old.geometry.g }
    requires before { ReadsColumns (part_of shard.old) shard.old.slots pointer.now column (R.told shard.old.rack) columns.old.items failed.old.items }
    requires room { shard.old.geometry.g ≤ vec_capacity failed.old }
    ensures rack { shard.new ≡ record shard.old { rack = shard.new.rack } }
    ensures told { R.told shard.new.rack ≡ R.told shard.old.rack }
    ensures shape { R.shape shard.new.rack ≡ R.shape shard.old.rack }
    ensures read { ReadsColumns (part_of shard.old) shard.old.slots pointer.now (column + 1) (R.told shard.old.rack) columns.new.items failed.new.items }
    ensures room { vec_capacity failed.new ≡ vec_capacity failed.old }
    ensures counts { (first : Option ℕ → ℕ) → CountsFailed failed.old.items first (R.faults shard.old.rack) → CountsFailed failed.new.items first (R.faults shard.new.rack) }
{
    let Some(mut bytes) = take_column(columns, column) else {
        return;
    };
    let rows = shard.rows_of(pointer, column);
    let outcome = read_column(&mut shard.rack, &shard.slots, rows, &mut bytes);
    note_read(columns, failed, column, bytes, outcome);
}

/// Takes what is at the place of a column.
fn take_column(columns: &mut Vec<Option<Vec<u8>>>, column: u32) -> Option<Vec<u8>>
    requires { column < length columns.old.items }
    ensures taken { slice_get columns.old.items column ≡ Some result }
    ensures left { Replaces columns.old.items columns.new.items column None }
{
    columns[column as usize].take()
}

/// Notes what became of the reading of a column: its bytes where they were read, the leaf where a call failed.
fn note_read(
    columns: &mut Vec<Option<Vec<u8>>>,
    failed: &mut Vec<u64>,
    column: u32,
    bytes: Vec<u8>,
    outcome: Outcome,
)
    requires taken { slice_get columns.old.items column ≡ Some None }
    requires room { vec_len failed.old < vec_capacity failed.old }
    ensures columns { Replaces columns.old.items columns.new.items column (column_after outcome bytes) }
    ensures failed { failed.new.items ≡ failed_after outcome failed.old.items }
    ensures room { vec_capacity failed.new ≡ vec_capacity failed.old }
{
    match outcome {
        Outcome::Silent => {}
        Outcome::Failed { leaf } => failed.push_reserved(leaf),
        Outcome::Done => columns[column as usize] = Some(bytes),
    }
}

/// A place for each column, of so many zeros, and room for as many leaves.
fn room_for(alloc: Global, count: u32, bytes: usize) -> Result<Room, NoMemory>
    ensures columns { IfOk result (λ room. length room.columns.items ≡ count) }
    ensures long { IfOk result (λ room. AreWhole room.columns.items bytes) }
    ensures failed { IfOk result (λ room. room.failed.items ≡ []) }
    ensures room { IfOk result (λ room. count ≤ vec_capacity room.failed) }
{
    let mut columns = Vec::with_capacity(alloc, count as usize)?;
    for _column in 0..count {
        columns.push_reserved(Some(vec![in alloc; 0; bytes]?));
    }
    let failed = Vec::with_capacity(alloc, count as usize)?;
    Ok(Room { columns, failed })
}

/// Reads one column from the arm that is to be read.
fn read_column<R: Rack>(rack: &mut R, slots: &Slots, rows: ColumnRows, into: &mut [u8]) -> Outcome
    requires fits { FitsRows (R.shape rack.old) slots.now rows }
    requires long { length into.old ≡ rows.count * rows.size }
    ensures reads { ReadsOn slots.now rows result (R.told rack.old) into.new }
    ensures whole { length into.new ≡ length into.old }
    ensures told { R.told rack.new ≡ R.told rack.old }
    ensures shape { R.shape rack.new ≡ R.shape rack.old }
    ensures counts { CountsOn result (R.faults rack.old) (R.faults rack.new) }
{
    let Some(read) = slots.reading_arm(rows.slot, rows.slice, rows.birth) else {
        return Outcome::Silent;
    };
    let at = ArmAt {
        slot: rows.slot,
        arm: read.arm,
    };
    let leaf = slots.place(at, rows.first).leaf;
    match read_rows(rack, rows.on(leaf), into) {
        Ok(()) => Outcome::Done,
        Err(_) => Outcome::Failed { leaf },
    }
}
