ghost use Rattle.std.specs.Prelude.{◌≡◌, ◌<◌, ◌≤◌, ◌-◌, ◌*◌, ◌||◌, ◌^◌, ℕ, None, IfErr, IfOk, IsErrOf, length, MatchResult, vec_capacity};
ghost use Rattle.draid_names.specs.Faults.{Rose};
ghost use Rattle.draid_names.specs.declared.fault.DeviceFault.{DeviceFault};
ghost use Rattle.draid_names.specs.declared.numbers.TheConstants.{LAST_NUMBER};
ghost use Rattle.draid_metaslab.specs.Spaces.{Stripes};
ghost use Rattle.draid_entries.specs.Entries.{count_of};
ghost use Rattle.draid_entries.specs.History.{limit_in};
ghost use Rattle.draid_record.specs.declared.sizes.TheConstants.{BLOCK_BYTES};
ghost use Rattle.draid_stable.specs.Opening.{len_of};
ghost use Rattle.draid_shard.specs.Fits.{IsLeaf, Valid, is_rebuild, owed_for_pass};
ghost use Rattle.draid_shard.specs.Loans.{HasFlushRoom};
ghost use Rattle.draid_shard.specs.Part.{IsPart};
ghost use Rattle.draid_shard.specs.States.{part_of};
ghost use Rattle.draid_import.specs.Reopening.{GivesBack, KitAreasLater, Opens, OpensCounts, area_of_kit, AreBytes, AreReadFrom, BeginsWith, OpenIsRefused, ReadsTables};

use crate::fault::{OpenFault, OpenRefused};
use draid_area::Area;
use draid_entries::History;
use draid_metaslab::Space;
use draid_names::{DeviceFault, NoMemory, PassKind};
use draid_pass::Pass;
use draid_perm::Perms;
use draid_rack::Rack;
use draid_record::{BLOCK_BYTES, RecordFault, length_of};
use draid_shard::Shard;
use draid_shelf::Kit;
use draid_spec::Geometry;
use draid_stable::{Tables, keep_arms, read_tables};
use std::alloc::Global;

/// The tables of a record, and the byte of its first block.
#[derive(Drop)]
struct ReadTables {
    tables: Tables,
    blocks_at: u64,
}

/// The bytes of an area.
fn read_area<A: Area>(alloc: Global, area: &mut A) -> Result<Vec<u8>, DeviceFault>
    ensures told { A.told area.new ≡ A.told area.old }
    ensures bytes { IfOk result (λ bytes. AreBytes (A.told area.old) bytes.items) }
    ensures later { A.faults area.old ≤ A.faults area.new }
    ensures cause { IsErrOf result DeviceFault.Failed → Rose (A.faults area.old) (A.faults area.new) }
{
    let Ok(mut bytes) = zeros(alloc, area.length() as usize) else {
        return Err(DeviceFault::NoMemory);
    };
    area.read(0, &mut bytes)?;
    Ok(bytes)
}

/// So many bytes.
fn zeros(alloc: Global, len: usize) -> Result<Vec<u8>, NoMemory>
    ensures { IfOk result (λ bytes. length bytes.items ≡ len) }
{
    Ok(vec![in alloc; 0; len]?)
}

/// The bytes of the area of a group's record.
fn read_group<R: Rack, A: Area>(
    alloc: Global,
    kit: &mut Kit<R, A>,
    group: u64,
) -> Result<Vec<u8>, DeviceFault>
    ensures back { GivesBack A.told kit.old kit.new group }
    ensures bytes { IfOk result (λ bytes. AreBytes (A.told (area_of_kit kit.old group)) bytes.items) }
    ensures later { KitAreasLater A.faults kit.old kit.new }
    ensures cause { IsErrOf result DeviceFault.Failed
        → Rose (A.faults (area_of_kit kit.old group)) (A.faults (area_of_kit kit.new group)) }
{
    if group % 2 == 0 {
        read_area(alloc, &mut kit.even)
    } else {
        read_area(alloc, &mut kit.odd)
    }
}

/// The byte at which the first block of a record stands, of which these are the tables: the blocks are the last of it.
fn first_block(bytes: &[u8], tables: &Tables) -> u64
    requires { AreReadFrom bytes.now tables.now }
    ensures { result ≡ len_of bytes.now - BLOCK_BYTES * count_of tables.now.entries }
{
    length_of(bytes).saturating_sub(BLOCK_BYTES * tables.entries.count() as u64)
}

/// The tables of the record of a group.
fn read_kit<R: Rack, A: Area>(
    alloc: Global,
    kit: &mut Kit<R, A>,
    number: u32,
    geometry: Geometry,
    perms: Perms,
    group: u64,
    next_leaf: u64,
) -> Result<ReadTables, OpenFault>
    requires part { IsPart (record { geometry = geometry; perms = perms; number = number }) }
    requires group { group < LAST_NUMBER }
    ensures back { GivesBack A.told kit.old kit.new group }
    ensures later { KitAreasLater A.faults kit.old kit.new }
    ensures read { IfOk result (ReadsTables R.Rack A.told geometry perms number kit.old group next_leaf) }
    ensures refused { IfErr result (OpenIsRefused R.Rack A.faults A.told geometry number kit.old kit.new group next_leaf) }
{
    let bytes = match read_group(alloc, kit, group) {
        Ok(bytes) => bytes,
        Err(DeviceFault::Failed) => return Err(OpenFault::Area),
        Err(DeviceFault::NoMemory) => return Err(OpenFault::NoMemory),
    };
    match read_tables(
        alloc, &bytes, &kit.rack, geometry, perms, number, group, next_leaf,
    ) {
        Ok(tables) => {
            let blocks_at = first_block(&bytes, &tables);
            Ok(ReadTables { tables, blocks_at })
        }
        Err(RecordFault::Bad { at, kind }) => Err(OpenFault::Record { at, kind }),
        Err(RecordFault::NoMemory) => Err(OpenFault::NoMemory),
    }
}

/// How many events a pass may still add.
fn owed_for(pass: &Option<Pass>) -> u64
    ensures { result ≡ owed_for_pass pass.now }
{
    match pass {
        None => 0,
        Some(pass) if pass.kind == PassKind::Rebuild && pass.running => 1,
        Some(_) => 2,
    }
}

/// The history of a metaslab that is opened with these tables. It may begin with more owed than its limit.
fn history_of(alloc: Global, tables: &Tables, events: u64) -> Result<History, NoMemory>
    requires few { count_of tables.now.entries ≤ 8192 }
    ensures { IfOk result (BeginsWith tables.now events) }
{
    let owed = tables.entries.count() as u64 + owed_for(&tables.pass);
    History::opened(alloc, events, owed)
}

/// Room for the leaves on which the end of a pass may fail: those of all arms, of which no slot has more than three.
fn flush_room(alloc: Global, pass: &Option<Pass>, children: u32) -> Result<Vec<u64>, NoMemory>
    ensures { IfOk result (λ room. HasFlushRoom children pass.now (vec_capacity room)) }
{
    if pass.is_none() {
        return Ok(Vec::new(alloc));
    }
    let room = Vec::with_capacity(alloc, 3 * children as usize)?;
    Ok(room)
}

/// Whether a pass is a rebuild.
fn is_rebuild(pass: &Option<Pass>) -> bool
    ensures { result ≡ is_rebuild pass.now }
{
    match pass {
        None => false,
        Some(pass) => pass.kind == PassKind::Rebuild,
    }
}

/// A space takes no new blocks while a rebuild has its metaslab.
fn shut_for(space: &mut Space, pass: &Option<Pass>)
    ensures { space.new ≡ record space.old { disabled = space.old.disabled || is_rebuild pass.now } }
{
    if is_rebuild(pass) {
        space.disable();
    }
}

/// Opens a metaslab from the record of a committed group. Leaves have numbers below `next_leaf`; those that the
/// record doesn't name are given up. So many events may be stored and owed, besides what the record owes.
pub fn reopen<R: Rack, A: Area>(
    alloc: Global,
    number: u32,
    geometry: Geometry,
    perms: Perms,
    kit: Kit<R, A>,
    events: u64,
    group: u64,
    next_leaf: u64,
) -> Result<Shard<R, A>, OpenRefused<R, A>>
    requires part { IsPart (record { geometry = geometry; perms = perms; number = number }) }
    requires bytes { (R.shape kit.rack).bytes ≡ geometry.props.sector }
    requires group { (1 ≤ group) × (group < LAST_NUMBER) }
    requires next { (geometry.spec.children ≤ next_leaf) × (next_leaf ≤ LAST_NUMBER) }
    ensures valid { IfOk result (Valid R.Rack) }
    ensures part { IfOk result (λ shard. part_of shard ≡ record { geometry = geometry; perms = perms; number = number }) }
    ensures begins { IfOk result (λ shard. (limit_in shard.history ≡ events) × (shard.committed ≡ group)) }
    ensures opened { IfOk result (Opens R.Rack A.told kit group next_leaf) }
    ensures gone { IfOk result (λ shard. (leaf : ℕ) → leaf < 2 ^ 64 → (IsLeaf shard.slots leaf → ⊥) → (R.shape shard.rack).leaves leaf ≡ None) }
    ensures counts { MatchResult result (OpensCounts R.Rack A.faults kit) (λ refused. KitAreasLater A.faults kit refused.kit) }
    ensures back { IfErr result (λ refused. GivesBack A.told kit refused.kit group) }
    // why: the area's failure; the first fault of the record by its place, or one behind it; want of memory
    ensures refused { IfErr result (λ refused. OpenIsRefused R.Rack A.faults A.told geometry number kit refused.kit group next_leaf refused.why) }
{
    let mut kit = kit;
    let ReadTables { tables, blocks_at } = match read_kit(
        alloc, &mut kit, number, geometry, perms, group, next_leaf,
    ) {
        Ok(it) => it,
        Err(why) => return Err(OpenRefused { kit, why }),
    };
    let Ok(history) = history_of(alloc, &tables, events) else {
        return Err(OpenRefused {
            kit,
            why: OpenFault::NoMemory,
        });
    };
    let Ok(flushed) = flush_room(alloc, &tables.pass, geometry.spec.children) else {
        return Err(OpenRefused {
            kit,
            why: OpenFault::NoMemory,
        });
    };
    keep_arms(&mut kit.rack, &tables.slots);
    let mut space = tables.space;
    shut_for(&mut space, &tables.pass);
    Ok(Shard {
        number,
        geometry,
        perms,
        rack: kit.rack,
        slots: tables.slots,
        space,
        pass: tables.pass,
        last_pass: tables.last_pass,
        serial: 0,
        kept: None,
        idle: None,
        flushed,
        history,
        entries: tables.entries,
        even: kit.even,
        odd: kit.odd,
        open_group: group + 1,
        closing: None,
        sealed: false,
        committed: group,
        version: geometry.props.version,
        asked: geometry.props.version,
        blocks_at,
        alloc,
    })
}
