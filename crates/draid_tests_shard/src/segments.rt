ghost use Rattle.std.specs.Prelude.{IsTrue};
ghost use Rattle.draid_rack.specs.Memory.{shape_of_memory};
ghost use Rattle.draid_rack.specs.Rack.{Fits};

use crate::replay::{History, SPARE, Step, add_steps, land_block, site_of, slots_of};
use draid_faults::CrashRule;
use draid_machine::{ArmName, Patched};
use draid_names::{At, Failed, NoMemory, PassKind};
use draid_rack::{MemoryRack, Rack};
use draid_world::{Site, World};
use std::alloc::Global;

// The one block of these histories lies on stripe 0, so each of its segments is the first sector of a leaf.

/// The bytes of a column of the block.
fn piece(column: u32) -> [u8; 512] {
    [(column % 100) as u8 + 1; 512]
}

/// Whether a leaf has a first sector, of 512 bytes.
fn has_first(rack: &MemoryRack, leaf: u64) -> bool
    ensures { IsTrue result → Fits (shape_of_memory rack.now) leaf 0 512 }
{
    match rack.sectors(leaf) {
        Some(count) => count > 0 && rack.sector_bytes() == 512,
        None => false,
    }
}

/// Writes the first sector of a leaf.
fn write_first(rack: &mut MemoryRack, leaf: u64, bytes: &[u8; 512]) -> Result<(), Failed> {
    if !has_first(rack, leaf) {
        return Err(Failed);
    }
    rack.write(leaf, 0, bytes)
}

/// Whether the first sector of a leaf reads as a column of the block.
fn stands(rack: &mut MemoryRack, leaf: u64, column: u32) -> bool {
    if !has_first(rack, leaf) {
        return false;
    }
    let mut bytes = [0; 512];
    rack.read(leaf, 0, &mut bytes).is_ok() && bytes == piece(column)
}

/// Whether a rack has what a state says of it: each segment that is present and in no doubt reads as its block's.
fn holds(world: &World, rack: &mut MemoryRack) -> bool {
    for segment in world.present.iter() {
        if !world.aside.contains(segment) && !stands(rack, segment.leaf, segment.column) {
            return false;
        }
    }
    true
}

/// Flushes the leaves from 0 on.
fn flush_all(rack: &mut MemoryRack) -> Result<(), Failed> {
    for leaf in 0..4 {
        if has_first(rack, leaf) {
            rack.flush(leaf)?;
        }
    }
    Ok(())
}

/// The columns of the block are put, and its group is sealed.
fn write_block(rack: &mut MemoryRack, slots: [u32; 4]) -> Result<(), Failed> {
    for column in 0..3 {
        write_first(rack, u64::from(slots[column as usize]), &piece(column))?;
    }
    flush_all(rack)
}

/// The first sector of the leaf of a slot.
fn first_of(slot: u32) -> At {
    At {
        leaf: u64::from(slot),
        sector: 0,
    }
}

/// The first column is made from the second and third one, and lands on a leaf.
fn mend_first(rack: &mut MemoryRack, leaf: u64, slots: [u32; 4]) -> Result<(), Failed> {
    let sources = [first_of(slots[1]), first_of(slots[2])];
    if !has_first(rack, leaf) {
        return Err(Failed);
    }
    rack.mend(leaf, 0, &piece(0), &sources)
}

/// Damages the first sector of a leaf.
fn damage_first(rack: &mut MemoryRack, leaf: u64) -> Result<(), Failed> {
    if !has_first(rack, leaf) {
        return Err(Failed);
    }
    rack.damage(leaf, 0)
}

/// Writes the first sector of a leaf anew, whose harm stays.
fn patch_first(rack: &mut MemoryRack, leaf: u64, bytes: &[u8; 512]) -> Result<(), Failed> {
    if !has_first(rack, leaf) {
        return Err(Failed);
    }
    rack.patch(leaf, 0, bytes)
}

/// Flushes a leaf, and ends the harm of its first sector.
fn settle_first(rack: &mut MemoryRack, leaf: u64) -> Result<(), Failed> {
    if !has_first(rack, leaf) {
        return Err(Failed);
    }
    rack.flush(leaf)?;
    rack.settle(leaf, 0);
    Ok(())
}

/// The second column's leaf is damaged, and a whole landing puts it right.
fn heal_second(rack: &mut MemoryRack, leaf: u64) -> Result<(), Failed> {
    damage_first(rack, leaf)?;
    patch_first(rack, leaf, &piece(1))?;
    settle_first(rack, leaf)?;
    flush_all(rack)
}

/// The block is written, and committed in group 2.
static WRITTEN: [Step; 8] = [
    Step::Begin,
    Step::Put(0),
    Step::Put(1),
    Step::Put(2),
    Step::Finish,
    Step::Close(2),
    Step::Seal(2),
    Step::Commit(2),
];

/// The first column's leaf goes offline; a spare takes its place, and the block's stripe lands on it behind group 3.
static MENDED: [Step; 9] = [
    Step::Offline(0),
    Step::Attach(0, SPARE),
    Step::Plan(PassKind::Rebuild),
    Step::Close(3),
    Step::Seal(3),
    Step::Commit(3),
    Step::Ready,
    Step::Lend,
    Step::LandStripe(1, 1),
];

/// The first leaf is back, the second one is damaged, and a scrub begins.
static SCRUBBED: [Step; 4] = [
    Step::Online(0),
    Step::DamageColumn(1),
    Step::Plan(PassKind::Heal),
    Step::Lend,
];

/// What a scrub rewrites of the second column, on its leaf.
fn patched(alloc: Global, leaf: u64) -> Result<Vec<Patched>, NoMemory> {
    let mut patched = Vec::new(alloc);
    patched.push(Patched {
        column: 1,
        arm: ArmName::Leaf { leaf },
        written: Vec::from_slice(alloc, &[0])?,
        landed: Vec::from_slice(alloc, &[0])?,
    })?;
    Ok(patched)
}

/// The second leaf is damaged, and a scrub puts it right.
fn add_scrubbed(history: &mut History, alloc: Global, slots: [u32; 4]) -> Result<(), NoMemory> {
    add_steps(history, alloc, slots, SCRUBBED.as_slice())?;
    match patched(alloc, u64::from(slots[1])) {
        Ok(patched) => history.add(land_block(alloc, patched)),
        Err(fault) => Err(fault),
    }
}

/// A stage: the block is written, its stripe lands on a spare, this pass ends, a scrub puts the block right.
fn add_stage(
    history: &mut History,
    alloc: Global,
    slots: [u32; 4],
    stage: u32,
) -> Result<(), NoMemory> {
    match stage {
        0 => add_steps(history, alloc, slots, WRITTEN.as_slice()),
        1 => add_steps(history, alloc, slots, MENDED.as_slice()),
        2 => add_steps(history, alloc, slots, &[Step::Done]),
        _ => add_scrubbed(history, alloc, slots),
    }
}

/// What the calls of a stage do to a rack.
fn do_stage(rack: &mut MemoryRack, slots: [u32; 4], stage: u32) -> Result<(), Failed> {
    match stage {
        0 => write_block(rack, slots),
        1 => mend_first(rack, u64::from(slots[3]), slots),
        2 => flush_all(rack),
        _ => heal_second(rack, u64::from(slots[1])),
    }
}

/// A byte of the third column is changed.
fn change_third(rack: &mut MemoryRack, leaf: u64) -> Result<(), Failed> {
    let mut bytes = piece(2);
    bytes[0] = 0;
    write_first(rack, leaf, &bytes)
}

/// Whether a rack has what the state says that a history gives.
fn agrees(alloc: Global, site: &Site, history: &History, rack: &mut MemoryRack) -> Option<bool> {
    match history.replayed(alloc, site) {
        Ok(world) => Some(holds(&world, rack)),
        Err(_) => None,
    }
}

/// Does the stages up to one, in the history and on the rack.
fn do_all(
    alloc: Global,
    history: &mut History,
    rack: &mut MemoryRack,
    slots: [u32; 4],
    last: u32,
) -> bool {
    for stage in 0..4 {
        if stage <= last
            && (add_stage(history, alloc, slots, stage).is_err()
                || do_stage(rack, slots, stage).is_err())
        {
            return false;
        }
    }
    true
}

/// Whether the rack has what the image says that is committed at a stage, opened again after a crash, and no more once a
/// byte of the third column is changed.
fn agrees_opened(
    alloc: Global,
    site: &Site,
    history: &mut History,
    rack: &mut MemoryRack,
    slots: [u32; 4],
    stage: u32,
) -> bool {
    rack.crash(CrashRule::Torn);
    let group = if stage == 0 { 2 } else { 3 };
    add_steps(history, alloc, slots, &[Step::Reopen(group)]).is_ok()
        && agrees(alloc, site, history, rack) == Some(true)
        && change_third(rack, u64::from(slots[2])).is_ok()
        && agrees(alloc, site, history, rack) == Some(false)
}

/// Whether the rack has what the state says behind a stage, and this holds of its image.
fn agrees_at(
    alloc: Global,
    site: &Site,
    history: &mut History,
    rack: &mut MemoryRack,
    stage: u32,
) -> bool {
    let Some(slots) = slots_of(site) else {
        return false;
    };
    do_all(alloc, history, rack, slots, stage)
        && agrees(alloc, site, history, rack) == Some(true)
        && agrees_opened(alloc, site, history, rack, slots, stage)
}

/// Whether this is so of a new rack.
fn agree(alloc: Global, stage: u32) -> bool {
    let Ok(site) = site_of(b"draid1:2d:1s", 4) else {
        return false;
    };
    let mut history = History::new(alloc);
    match MemoryRack::new(alloc, 4, 8, 512, Vec::new(alloc)) {
        Ok(mut rack) => agrees_at(alloc, &site, &mut history, &mut rack, stage),
        Err(_) => false,
    }
}

#[test]
fn racks_have_what_states_and_images_say(rt: HostRuntime) {
    for stage in 0..4 {
        assert!(rt; agree(rt.alloc(), stage), "{stage}");
    }
}
