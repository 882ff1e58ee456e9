ghost use Rattle.std.specs.Prelude.{◌≡◌, ◌&&◌, ◌<◌, ◌≤◌, [], ℕ, None, All, IfErr, IfOk, OnOk, length, map, nat_le};
ghost use Rattle.draid_names.specs.declared.arm.ArmAt.{ArmAt};
ghost use Rattle.draid_names.specs.declared.numbers.TheConstants.{NUMBERS};
ghost use Rattle.draid_spec.specs.Geometry.{IsGeometry, metaslab_sectors, metaslab_stripes};
ghost use Rattle.draid_map.specs.Place.{IsLayout};
ghost use Rattle.draid_ranges.specs.Numbers.{has};
ghost use Rattle.draid_metaslab.specs.Spaces.{IsSpan};
ghost use Rattle.draid_entries.specs.Listed.{AscendFrom};
ghost use Rattle.draid_entries.specs.Live.{HasLive, first_twice};
ghost use Rattle.draid_record.specs.Record.{Fits, limits_of};
ghost use Rattle.draid_slots.specs.Changes.{HasRoom, IsOf};
ghost use Rattle.draid_slots.specs.Table.{AreSlots, arms_listed, is_logged, log_in, logs_listed};
ghost use Rattle.draid_stable.specs.Opening as spec;
ghost use Rattle.draid_stable.specs.Opening.{AreRead, CutsArm, CutsSlot, CutsSlots, IsSpaceOf, opening_of, run_of};

use crate::leaves::lacking;
use draid_dtl::Log;
use draid_entries::{Entries, ListFault};
use draid_metaslab::Space;
use draid_names::{Arm, NoMemory, Pointer};
use draid_pass::Pass;
use draid_perm::Perms;
use draid_rack::Rack;
use draid_ranges::Run;
use draid_record::{BLOCK_BYTES, RecordFault, RecordFaultKind, length_of, read_record};
use draid_slots::Slots;
use draid_spec::Geometry;
use std::alloc::Global;

/// The changes of a log for which there is room at first. Blocks may be born in the open group and in the next, to which a
/// caller may have come; and the end of a rebuild takes these groups out of the logs of its targets.
const LOG_CHANGES: u32 = 4;

/// The tables of a metaslab that is opened from a record.
#[derive(Drop)]
pub struct Tables {
    /// The blocks, each live.
    pub entries: Entries,
    /// The arms, whose logs have no group above the record's.
    pub slots: Slots,
    /// The stripes of the blocks are taken.
    pub space: Space,
    pub pass: Option<Pass>,
    pub last_pass: u64,
}

/// The groups above one go from an arm's log.
fn cut_arm(pair: &mut (Arm, Log), group: u64)
    ensures { CutsArm pair.old pair.new group }
{
    pair.1.cut_above(group);
}

/// They go from the logs of a slot.
fn cut_slot(list: &mut Vec<(Arm, Log)>, group: u64)
    ensures { CutsSlot list.old.items list.new.items group }
{
    for arm in 0..list.len() {
        cut_arm(&mut list[arm], group);
    }
}

/// They go from the logs of all slots.
fn cut_slots(lists: &mut Vec<Vec<(Arm, Log)>>, group: u64)
    ensures { CutsSlots lists.old.items lists.new.items group }
{
    for slot in 0..lists.len() {
        cut_slot(&mut lists[slot], group);
    }
}

/// The runs of the blocks, one for each.
fn runs_of(alloc: Global, blocks: &[Pointer]) -> Result<Vec<Run>, NoMemory>
    ensures { IfOk result (λ runs. runs.items ≡ map run_of blocks.now) }
{
    let mut runs = Vec::new(alloc);
    for block in blocks {
        runs.push(Run {
            first: block.first,
            len: u64::from(block.stripes),
        })?;
    }
    Ok(runs)
}

/// The space of a metaslab that has these blocks.
fn space_of(alloc: Global, geometry: &Geometry, blocks: &[Pointer]) -> Result<Space, NoMemory>
    requires geometry { IsGeometry geometry.now }
    requires inside { All (λ b. IsSpan (metaslab_stripes geometry.now) b.first b.stripes) blocks.now }
    ensures { IfOk result (IsSpaceOf geometry.now blocks.now) }
{
    let runs = runs_of(alloc, blocks)?;
    Ok(Space::new(alloc, geometry, &runs)?)
}

/// The table of the blocks of a record that stands in these bytes.
fn entries_of(alloc: Global, bytes: &[u8], blocks: &[Pointer]) -> Result<Entries, RecordFault>
    requires long { 10 ≤ length bytes.now }
    requires few { length blocks.now ≤ 8192 }
    requires ascending { AscendFrom 0 blocks.now }
    requires low { All (λ b. b.first < NUMBERS) blocks.now }
    ensures live { IfOk result (λ table. HasLive table blocks.now) }
    ensures once { OnOk result (first_twice blocks.now ≡ None) }
    ensures refused { IfErr result (spec.IsTwice bytes.now blocks.now) }
{
    match Entries::of(alloc, blocks) {
        Ok(entries) => Ok(entries),
        Err(ListFault::NoMemory) => Err(RecordFault::NoMemory),
        Err(ListFault::Twice { place }) => {
            let behind = BLOCK_BYTES * blocks.len().saturating_sub(place) as u64;
            Err(RecordFault::Bad {
                at: length_of(bytes).saturating_sub(behind),
                kind: RecordFaultKind::Twice,
            })
        }
    }
}

/// The slots of a record, whose logs lose the groups above its own.
fn slots_of(
    alloc: Global,
    lists: Vec<Vec<(Arm, Log)>>,
    group: u64,
    geometry: Geometry,
    perms: Perms,
    metaslab: u32,
) -> Result<Slots, NoMemory>
    requires layout { IsLayout geometry perms }
    requires metaslab { metaslab < geometry.props.metaslabs }
    requires arms { AreSlots geometry (arms_listed lists.items) [] }
    ensures of { IfOk result (λ slots. IsOf slots geometry perms metaslab) }
    ensures arms { IfOk result (λ slots. slots.arms ≡ arms_listed lists.items) }
    ensures logs { IfOk result (λ slots. (at : ArmAt) (g : ℕ)
        → is_logged slots at g ≡ (has (log_in (logs_listed lists.items) at) g && nat_le g group)) }
    ensures detached { IfOk result (λ slots. slots.detached ≡ []) }
    ensures room { IfOk result (λ slots. HasRoom slots 4 0) }
{
    let mut lists = lists;
    cut_slots(&mut lists, group);
    let mut slots = Slots::of(alloc, geometry, perms, metaslab, lists)?;
    slots.reserve(alloc, LOG_CHANGES, 0)?;
    Ok(slots)
}

/// The tables of the record of a group that stands in these bytes. Its leaf arms are in the rack, with the metaslab's
/// sectors.
pub fn read_tables<R: Rack>(
    alloc: Global,
    bytes: &[u8],
    rack: &R,
    geometry: Geometry,
    perms: Perms,
    metaslab: u32,
    group: u64,
    next_leaf: u64,
) -> Result<Tables, RecordFault>
    requires layout { IsLayout geometry perms }
    requires metaslab { metaslab < geometry.props.metaslabs }
    requires group { group < NUMBERS }
    ensures read { IfOk result (AreRead geometry perms (limits_of geometry metaslab group next_leaf)
        (spec.has_leaf (R.shape rack.now) (metaslab_sectors geometry)) bytes.now) }
    ensures refused { IfErr result (λ fault. Fits fault (opening_of (limits_of geometry metaslab group next_leaf)
        (spec.has_leaf (R.shape rack.now) (metaslab_sectors geometry)) bytes.now)) }
{
    let it = read_record(alloc, bytes, &geometry, metaslab, group, next_leaf)?;
    if let Some(at) = lacking(rack, geometry.metaslab_sectors(), &it.slots) {
        return Err(RecordFault::Bad {
            at,
            kind: RecordFaultKind::Leaf,
        });
    }
    let entries = entries_of(alloc, bytes, &it.blocks)?;
    let Ok(space) = space_of(alloc, &geometry, &it.blocks) else {
        return Err(RecordFault::NoMemory);
    };
    let Ok(slots) = slots_of(alloc, it.slots, group, geometry, perms, metaslab) else {
        return Err(RecordFault::NoMemory);
    };
    Ok(Tables {
        entries,
        slots,
        space,
        pass: it.pass,
        last_pass: it.last_pass,
    })
}
