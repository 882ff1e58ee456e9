//! The check record of a group, in the area of its parity.
ghost use Rattle.std.specs.Prelude.{◌≡◌, ◌≤◌, ◌+◌, ◌%◌, ◌++◌, map, [], ℕ, Ok, Err, IfOk, IsErrOf, OnOk, length, option_map};
ghost use Rattle.draid_area.specs.Area.{Counts, OnTold, flushes, writes};
ghost use Rattle.draid_names.specs.Faults.{Rose};
ghost use Rattle.draid_record.specs.Checks.{IsCheck, told_check};
ghost use Rattle.draid_record.specs.declared.fault.RecordFaultKind.{RecordFaultKind};
ghost use Rattle.draid_record.specs.declared.fault.RecordFault.TheVariants.{Bad};
ghost use Rattle.draid_uber.specs.Checks.{CheckStands, check_area, check_in, count_in};
ghost use Rattle.draid_uber.specs.Points.{KeepsCheck, dropped_in, drops_upto, drops_with, no_check, told_at};

use crate::areas::Areas;
use draid_area::Area;
use draid_checkpoint::{Check, DroppedIn};
use draid_names::{DeviceFault, NoMemory};
use draid_record::{CheckBody, Dropped, RecordFault, RecordFaultKind, read_check, write_check};
use std::alloc::Global;

/// Why no check record was read.
#[derive(Clone, Copy)]
pub enum CheckFault {
    /// The area failed, and its count rose.
    Area,
    NoMemory,
    /// The first field that has a fault begins at byte `at` of the area.
    Record { at: u64, kind: RecordFaultKind },
}

/// Puts bytes at the front of an area, and flushes it.
fn put_front<A: Area>(area: &mut A, bytes: &[u8]) -> Result<(), DeviceFault>
    ensures told { OnOk result (A.told area.new ≡ option_map (λ x. flushes (writes 0 bytes.now x)) (A.told area.old)) }
    ensures cause { Counts result (A.faults area.old) (A.faults area.new) }
{
    area.write(0, bytes)?;
    area.flush()
}

/// What a check record says where there is no checkpoint.
pub(crate) fn no_check(alloc: Global) -> CheckBody
    ensures { told_check result ≡ no_check }
{
    CheckBody {
        group: 0,
        drops: Vec::new(alloc),
    }
}

/// The blocks that were dropped in groups up to one, in the order in which they were.
fn blocks_upto(alloc: Global, dropped: &[DroppedIn], group: u64) -> Result<Vec<Dropped>, NoMemory>
    ensures { IfOk result (λ blocks. blocks.items ≡ drops_upto group dropped.now) }
{
    let upto = dropped.iter().filter(|it| it.group <= group);
    let blocks = upto.map(|it| Dropped {
        object: it.object,
        seq: it.seq,
    });
    Ok(blocks.collect(alloc)?)
}

/// Blocks, ascending.
fn ascending(blocks: Vec<Dropped>) -> Vec<Dropped>
    ensures { result.items ≡ drops_with [] blocks.items }
{
    let mut blocks = blocks;
    blocks.sort_unstable_by_key(|block| (block.object, block.seq));
    blocks
}

/// What the check record of a group says of a checkpoint.
pub(crate) fn check_at(alloc: Global, point: &Check, group: u64) -> Result<CheckBody, NoMemory>
    ensures { IfOk result (λ it. told_check it ≡ told_at point.now group) }
{
    let Some(own) = point.group() else {
        return Ok(no_check(alloc));
    };
    if group < own {
        return Ok(no_check(alloc));
    }
    let blocks = blocks_upto(alloc, point.drops(), group)?;
    Ok(CheckBody {
        group: own,
        drops: ascending(blocks),
    })
}

/// From this group on the checkpoint alone keeps these blocks.
fn drop_all(point: &mut Check, blocks: &[Dropped], group: u64)
    requires room { length blocks.now ≤ point.old.spare }
    ensures group { point.new.group ≡ point.old.group }
    ensures drops { point.new.drops ≡ point.old.drops ++ map (dropped_in group) blocks.now }
    ensures room { point.old.spare ≤ point.new.spare + length blocks.now }
{
    for block in blocks {
        point.drop_block(block.object, block.seq, group);
    }
}

/// The checkpoint that the check record of a group tells, with room for so many further blocks that it alone keeps.
pub(crate) fn kept_check(
    alloc: Global,
    check: &CheckBody,
    group: u64,
    blocks: u64,
) -> Result<Check, NoMemory>
    requires range { IsCheck group (told_check check.now) }
    requires few { length check.now.drops.items + blocks ≤ 524_288 }
    ensures keeps { IfOk result (λ point. KeepsCheck group (told_check check.now) point) }
    ensures room { IfOk result (λ point. blocks ≤ point.spare) }
{
    if check.group == 0 {
        let mut none = Check::none(alloc);
        none.reserve(blocks)?;
        return Ok(none);
    }
    let dropped = check.drops.len() as u64;
    let mut point = Check::at(alloc, check.group, dropped + blocks)?;
    drop_all(&mut point, &check.drops, group);
    Ok(point)
}

/// Writes what the check record of a group says, and flushes its area.
pub(crate) fn put_check<A: Area>(
    alloc: Global,
    areas: &mut Areas<A>,
    body: &CheckBody,
    group: u64,
) -> Result<(), DeviceFault>
    requires range { IsCheck group (told_check body.now) }
    ensures written { OnOk result (OnTold (A.told (check_area areas.new group)) (CheckStands (told_check body.now) group)) }
    // The area of the groups before it and behind it is as it was.
    ensures other { (n : ℕ) → (n % 2 ≡ group % 2 → ⊥) → check_area areas.new n ≡ check_area areas.old n }
    ensures uber { areas.new.uber ≡ areas.old.uber }
    ensures cause { Counts result (count_in A.faults areas.old) (count_in A.faults areas.new) }
{
    let bytes = write_check(alloc, body, group)?;
    if group % 2 == 0 {
        put_front(&mut areas.even, &bytes)
    } else {
        put_front(&mut areas.odd, &bytes)
    }
}

/// So many bytes.
fn zeros(alloc: Global, len: usize) -> Result<Vec<u8>, NoMemory>
    ensures { IfOk result (λ bytes. length bytes.items ≡ len) }
{
    Ok(vec![in alloc; 0; len]?)
}

/// The bytes of an area.
fn read_all<A: Area>(alloc: Global, area: &mut A) -> Result<Vec<u8>, DeviceFault>
    ensures told { A.told area.new ≡ A.told area.old }
    ensures bytes { IfOk result (λ bytes. OnTold (A.told area.old) (λ x. bytes.items ≡ x.bytes)) }
    ensures size { A.size area.new ≡ A.size area.old }
    ensures later { A.faults area.old ≤ A.faults area.new }
    ensures cause { IsErrOf result DeviceFault.Failed → Rose (A.faults area.old) (A.faults area.new) }
{
    let Ok(mut bytes) = zeros(alloc, area.length() as usize) else {
        return Err(DeviceFault::NoMemory);
    };
    area.read(0, &mut bytes)?;
    Ok(bytes)
}

/// What bytes have of a group's checkpoint.
fn check_of(alloc: Global, bytes: &[u8], group: u64) -> Result<CheckBody, RecordFault>
    ensures found { IfOk result (λ it. check_in group bytes.now ≡ Ok (told_check it)) }
    ensures range { IfOk result (λ it. IsCheck group (told_check it)) }
    ensures faulty { (place : ℕ) (kind : RecordFaultKind) → result ≡ Err (Bad place kind) → check_in group bytes.now ≡ Err (Bad place kind) }
{
    if bytes.is_empty() {
        return Ok(no_check(alloc));
    }
    read_check(alloc, bytes, group)
}

/// What an area has of a group's checkpoint.
pub(crate) fn read_of<A: Area>(
    alloc: Global,
    area: &mut A,
    group: u64,
) -> Result<CheckBody, CheckFault>
    ensures told { A.told area.new ≡ A.told area.old }
    ensures found { IfOk result (λ it. OnTold (A.told area.old) (λ x. check_in group x.bytes ≡ Ok (told_check it))) }
    ensures range { IfOk result (λ it. IsCheck group (told_check it)) }
    ensures faulty { (place : ℕ) (kind : RecordFaultKind) → IsErrOf result (CheckFault.Record place kind)
        → OnTold (A.told area.old) (λ x. check_in group x.bytes ≡ Err (Bad place kind)) }
    ensures size { A.size area.new ≡ A.size area.old }
    ensures later { A.faults area.old ≤ A.faults area.new }
    ensures cause { IsErrOf result CheckFault.Area → Rose (A.faults area.old) (A.faults area.new) }
{
    let bytes = match read_all(alloc, area) {
        Ok(bytes) => bytes,
        Err(DeviceFault::Failed) => return Err(CheckFault::Area),
        Err(DeviceFault::NoMemory) => return Err(CheckFault::NoMemory),
    };
    match check_of(alloc, &bytes, group) {
        Ok(body) => Ok(body),
        Err(RecordFault::Bad { at, kind }) => Err(CheckFault::Record { at, kind }),
        Err(RecordFault::NoMemory) => Err(CheckFault::NoMemory),
    }
}
