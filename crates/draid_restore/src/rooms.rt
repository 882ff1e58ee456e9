//! The room in memory that a lend and its landing want: that of an earlier loan as far as it is long enough.
ghost use Rattle.std.specs.Prelude.{◌≡◌, ◌*◌, ◌≤◌, ◌<◌, ◌+◌, [], IfOk, OnOk, length, vec_capacity};
ghost use Rattle.draid_shard.specs.Fits.{Valid};
ghost use Rattle.draid_shard.specs.Loans.{AreRooms, IsLandingRoom, IsRowRoom};
ghost use Rattle.draid_shard.specs.Part.{IsRun};
ghost use Rattle.draid_shard.specs.States.{part_of};
ghost use Rattle.draid_restore.specs.Rooms.{HasColumns, HasLendRoom, HasReadRoom, IsBufferFor};

use crate::choosing::has_reading;
use crate::idle::{Rest, rest_of};
use crate::parts::parts_for;
use crate::reading::Readings;
use draid_area::Area;
use draid_machine::ArmName;
use draid_names::{NoMemory, Pointer};
use draid_rack::Rack;
use draid_shard::{KeptLoan, LandingRoom, ReadArm, ReadingRoom, Shard, Spot, list_spots};
use draid_spec::Geometry;
use std::alloc::Global;

/// How many arms a slot may have.
const MOST_ARMS: usize = 3;

/// What a lend takes memory for: the readings, the arms that were read and chosen, and the room for the landing, with the
/// arms of the block that answer.
#[derive(Drop)]
pub(crate) struct LendRoom {
    pub lent: Readings,
    pub chosen: Vec<Option<ArmName>>,
    pub read: Vec<ReadArm>,
    pub room: LandingRoom,
}

/// The room that a lend of a block wants. It lists the arms of the block that answer.
pub(crate) fn room_for<R: Rack, A: Area>(
    shard: &Shard<R, A>,
    pointer: &Pointer,
    idle: Option<KeptLoan>,
) -> Result<LendRoom, NoMemory>
    requires valid { Valid R.Rack shard.now }
    requires run { IsRun shard.now.geometry pointer.now.first pointer.now.stripes }
    ensures { IfOk result (HasLendRoom (part_of shard.now) shard.now.slots pointer.now) }
{
    let g = shard.geometry.g;
    let Rest {
        columns,
        chosen,
        read,
        room,
        aside,
    } = rest_of(shard.alloc, idle);
    let mut room = landing_room(shard.alloc, &shard.geometry, pointer.stripes, room)?;
    list_spots(shard, pointer, &mut room.spots);
    let bytes = pointer.stripes as usize * shard.geometry.props.sector as usize;
    let lent = readings_for(shard.alloc, &room.spots, g, bytes, columns, aside)?;
    let chosen = emptied(chosen, g as usize)?;
    let read = emptied(read, room.spots.len())?;
    Ok(LendRoom {
        lent,
        chosen,
        read,
        room,
    })
}

/// The room for the readings: a buffer for each column that has an arm, and one for the others.
fn readings_for(
    alloc: Global,
    spots: &[Spot],
    columns: u32,
    bytes: usize,
    mut old: Vec<Option<Vec<u8>>>,
    aside: ReadingRoom,
) -> Result<Readings, NoMemory>
    ensures { IfOk result (HasReadRoom spots.now columns bytes) }
{
    let ReadingRoom {
        spare,
        mut buffers,
        failed,
    } = aside;
    take_buffers(&mut old, &mut buffers)?;
    let columns = columns_for(alloc, spots, columns, bytes, old, &mut buffers)?;
    let spare = resized(spare, bytes)?;
    let failed = emptied(failed, spots.len())?;
    Ok(Readings {
        columns,
        spare,
        buffers,
        failed,
    })
}

/// Takes the buffers of an earlier loan's columns.
fn take_buffers(
    columns: &mut Vec<Option<Vec<u8>>>,
    buffers: &mut Vec<Vec<u8>>,
) -> Result<(), NoMemory> {
    for i in 0..columns.len() {
        if let Some(buffer) = columns[i].take() {
            buffers.push(buffer)?;
        }
    }
    Ok(())
}

/// A buffer of so many bytes for each column that has an arm.
fn columns_for(
    alloc: Global,
    spots: &[Spot],
    columns: u32,
    bytes: usize,
    old: Vec<Option<Vec<u8>>>,
    buffers: &mut Vec<Vec<u8>>,
) -> Result<Vec<Option<Vec<u8>>>, NoMemory>
    ensures many { IfOk result (λ listed. length listed.items ≡ columns) }
    ensures each { IfOk result (λ listed. HasColumns spots.now bytes columns listed.items) }
{
    let mut listed = emptied(old, columns as usize)?;
    for column in 0..columns {
        let buffer = buffer_for(alloc, spots, column, bytes, buffers)?;
        listed.push_reserved(buffer);
    }
    Ok(listed)
}

/// One for a column that has an arm.
fn buffer_for(
    alloc: Global,
    spots: &[Spot],
    column: u32,
    bytes: usize,
    buffers: &mut Vec<Vec<u8>>,
) -> Result<Option<Vec<u8>>, NoMemory>
    ensures { IfOk result (IsBufferFor spots.now bytes column) }
{
    if !has_reading(spots, column) {
        return Ok(None);
    }
    let buffer = buffers.pop().unwrap_or(Vec::new(alloc));
    Ok(Some(resized(buffer, bytes)?))
}

/// A buffer with so many bytes.
fn resized(mut buffer: Vec<u8>, bytes: usize) -> Result<Vec<u8>, NoMemory>
    ensures { IfOk result (λ buffer. length buffer.items ≡ bytes) }
{
    buffer.resize(bytes, 0)?;
    Ok(buffer)
}

/// A list without its items, with room for so many.
pub(crate) fn emptied<T: Drop>(mut list: Vec<T>, count: usize) -> Result<Vec<T>, NoMemory>
    ensures empty { IfOk result (λ list. list.items ≡ []) }
    ensures room { IfOk result (λ list. count ≤ vec_capacity list) }
{
    list.clear();
    list.reserve(count)?;
    Ok(list)
}

/// Room for a landing on all arms of all columns, of so many rows.
fn landing_room(
    alloc: Global,
    geometry: &Geometry,
    rows: u32,
    old: LandingRoom,
) -> Result<LandingRoom, NoMemory>
    ensures { IfOk result (IsLandingRoom geometry.now rows) }
{
    let arms = MOST_ARMS * geometry.g as usize;
    let rows = rows as usize;
    let Some(calls) = arms.checked_mul(2 * rows + 1) else {
        return Err(NoMemory);
    };
    let spots = emptied(old.spots, arms)?;
    let sector = resized(old.sector, geometry.props.sector as usize)?;
    let parts = parts_for(alloc, arms, rows, old.parts)?;
    let patched = emptied(old.patched, arms)?;
    let failed = emptied(old.failed, calls)?;
    Ok(LandingRoom {
        spots,
        sector,
        parts,
        patched,
        failed,
    })
}
