ghost use Rattle.std.specs.Prelude.{◌≡◌, [], IfErr, IfOk, IsErrOf, OnOk};
ghost use Rattle.draid_names.specs.Faults.{Rose};
ghost use Rattle.draid_area.specs.Area.{OnTold};
ghost use Rattle.draid_rack.specs.Rack.{HasJust};
ghost use Rattle.draid_spec.specs.Geometry.{metaslab_sectors};
ghost use Rattle.draid_machine.specs.Created.{created};
ghost use Rattle.draid_entries.specs.History.{limit_in, reserved_of};
ghost use Rattle.draid_slots.specs.Changes.{HasRoom, IsNew, IsOf};
ghost use Rattle.draid_shard.specs.Fits.{Valid};
ghost use Rattle.draid_shard.specs.Part.{IsPart, layout_in};
ghost use Rattle.draid_shard.specs.States.{IsIn, layout_by, part_of, stored_in};
ghost use Rattle.draid_pool.specs.Groups.{ListsOnce};

use crate::fault::MetaslabRefused;
use draid_area::{Area, DeviceFault};
use draid_entries::{Entries, History};
use draid_metaslab::Space;
use draid_names::NoMemory;
use draid_perm::Perms;
use draid_pool::{BIRTH_GROUPS, into_kit, record_of, write_to};
use draid_rack::Rack;
use draid_shard::Shard;
use draid_shelf::Kit;
use draid_slots::Slots;
use draid_spec::Geometry;
use std::alloc::Global;

/// The slots of a new metaslab. Their logs have room for the groups in which blocks may be born.
fn new_slots(
    alloc: Global,
    geometry: Geometry,
    perms: Perms,
    number: u32,
) -> Result<Slots, NoMemory>
    requires part { IsPart (record { geometry = geometry; perms = perms; number = number }) }
    ensures of { IfOk result (λ slots. IsOf slots geometry perms number) }
    ensures new { IfOk result (IsNew geometry.spec.children) }
    ensures room { IfOk result (λ slots. HasRoom slots 3 0) }
{
    let mut slots = Slots::new(alloc, geometry, perms, number)?;
    slots.reserve(alloc, BIRTH_GROUPS, 0)?;
    Ok(slots)
}

/// An empty metaslab over devices that have the layout's leaves, each with the metaslab's sectors. Its group 1, which
/// has no block, is committed: the record of it is written to its area. So many events may be stored and owed.
pub fn create_metaslab<R: Rack, A: Area>(
    alloc: Global,
    number: u32,
    geometry: Geometry,
    perms: Perms,
    kit: Kit<R, A>,
    events: u64,
) -> Result<Shard<R, A>, MetaslabRefused<R, A>>
    requires part { IsPart (record { geometry = geometry; perms = perms; number = number }) }
    requires rack { HasJust (R.shape kit.rack) geometry.spec.children (metaslab_sectors geometry) geometry.props.sector }
    ensures valid { IfOk result (Valid R.Rack) }
    ensures part { IfOk result (λ shard. part_of shard ≡ record { geometry = geometry; perms = perms; number = number }) }
    ensures kit { IfOk result (λ shard. (shard.rack ≡ kit.rack) × (shard.even ≡ kit.even)) }
    ensures record { IfOk result (λ shard. OnTold (A.told shard.odd)
        (ListsOnce geometry number (created (layout_in (part_of shard)) geometry.props.version).image)) }
    ensures created { IfOk result (λ shard. IsIn shard (created (layout_in (part_of shard)) geometry.props.version)) }
    ensures none { IfOk result (λ shard. (stored_in shard ≡ []) × (reserved_of shard.history ≡ 0) × (limit_in shard.history ≡ events)) }
    ensures blocks { IfOk result (λ shard. shard.blocks_at ≡ 0) }
    // The area of odd groups may have been written.
    ensures refused { IfErr result (λ refused. (refused.kit.rack ≡ kit.rack) × (refused.kit.even ≡ kit.even)) }
    ensures why { IfErr result (λ refused. refused.why ≡ DeviceFault.Failed → Rose (A.faults kit.odd) (A.faults refused.kit.odd)) }
{
    let mut shard = match empty(alloc, number, geometry, perms, kit, events) {
        Ok(shard) => shard,
        Err(kit) => {
            return Err(MetaslabRefused {
                kit,
                why: DeviceFault::NoMemory,
            });
        }
    };
    match write_first(&mut shard) {
        Ok(()) => Ok(shard),
        Err(why) => Err(MetaslabRefused {
            kit: into_kit(shard),
            why,
        }),
    }
}

/// An empty metaslab, of which no record is written. Where memory is wanting the devices come back.
fn empty<R: Rack, A: Area>(
    alloc: Global,
    number: u32,
    geometry: Geometry,
    perms: Perms,
    kit: Kit<R, A>,
    events: u64,
) -> Result<Shard<R, A>, Kit<R, A>>
    requires part { IsPart (record { geometry = geometry; perms = perms; number = number }) }
    requires rack { HasJust (R.shape kit.rack) geometry.spec.children (metaslab_sectors geometry) geometry.props.sector }
    ensures valid { IfOk result (Valid R.Rack) }
    ensures part { IfOk result (λ shard. part_of shard ≡ record { geometry = geometry; perms = perms; number = number }) }
    ensures kit { IfOk result (λ shard. (shard.rack ≡ kit.rack) × (shard.even ≡ kit.even) × (shard.odd ≡ kit.odd)) }
    ensures version { IfOk result (λ shard. shard.asked ≡ geometry.props.version) }
    ensures blocks { IfOk result (λ shard. shard.blocks_at ≡ 0) }
    ensures created { IfOk result (λ shard. IsIn shard (created (layout_in (part_of shard)) geometry.props.version)) }
    ensures none { IfOk result (λ shard. (stored_in shard ≡ []) × (reserved_of shard.history ≡ 0) × (limit_in shard.history ≡ events)) }
    ensures back { IfErr result (λ back. back ≡ kit) }
{
    let Ok(space) = Space::new(alloc, &geometry, &[]) else {
        return Err(kit);
    };
    let Ok(slots) = new_slots(alloc, geometry, perms, number) else {
        return Err(kit);
    };
    Ok(Shard {
        number,
        geometry,
        perms,
        rack: kit.rack,
        slots,
        space,
        pass: None,
        last_pass: 0,
        serial: 0,
        kept: None,
        idle: None,
        flushed: Vec::new(alloc),
        history: History::new(alloc, events),
        entries: Entries::new(alloc),
        even: kit.even,
        odd: kit.odd,
        open_group: 2,
        closing: None,
        sealed: false,
        committed: 1,
        version: geometry.props.version,
        asked: geometry.props.version,
        blocks_at: 0,
        alloc,
    })
}

/// Writes the record of group 1 of a metaslab that is new.
fn write_first<R: Rack, A: Area>(shard: &mut Shard<R, A>) -> Result<(), DeviceFault>
    requires valid { Valid R.Rack shard.old }
    requires created { IsIn shard.old (created (layout_by shard.old) shard.old.asked) }
    ensures same { shard.new ≡ record shard.old { odd = shard.new.odd } }
    ensures record { OnOk result (OnTold (A.told shard.new.odd)
        (ListsOnce shard.old.geometry shard.old.number (created (layout_by shard.old) shard.old.asked).image)) }
    ensures cause { IsErrOf result DeviceFault.Failed → Rose (A.faults shard.old.odd) (A.faults shard.new.odd) }
{
    let Ok(made) = record_of(shard, 1) else {
        return Err(DeviceFault::NoMemory);
    };
    write_to(shard.alloc, &mut shard.even, &mut shard.odd, 1, &made)
}
