//! What a metaslab stored, beside what the state machine says of it.

ghost use Rattle.std.specs.Prelude.{All, IfOk, IsTrue};
ghost use Rattle.draid_shard.specs.Fits.{Valid};
ghost use Rattle.draid_replay.specs.Within.{IsSmallEvent, IsWithin};
ghost use Rattle.draid_world.specs.World.{state_of};

use crate::calls::call_all;
use crate::groups::has_groups;
use crate::replay::site_of;
use draid_area::Area;
use draid_entries::{Entries, Entry};
use draid_machine::{ArmName, Event, Held, Key};
use draid_names::{ArmKind, NUMBERS, Pointer};
use draid_rack::Rack;
use draid_replay::{ReplayFault, new_world, replay};
use draid_shard::Shard;
use draid_slots::Slots;
use draid_world::{Site, World};
use std::alloc::Global;

/// Whether the numbers of an event are in their ranges.
fn is_small(event: &Event) -> bool
    ensures { IsTrue result → IsSmallEvent event.now }
{
    match event {
        Event::Begin { first, birth, .. } => *first < NUMBERS && *birth < NUMBERS,
        Event::Free { group, .. } | Event::Seal { group, .. } => *group < NUMBERS,
        Event::Close { group } | Event::Commit { group } => *group < NUMBERS,
        Event::Reopen { group, .. } => *group < NUMBERS,
        _ => true,
    }
}

/// Whether those of all events are.
fn are_small(events: &[Event]) -> bool
    ensures { IsTrue result → All IsSmallEvent events.now }
{
    for at in 0..events.len() {
        if !is_small(&events[at]) {
            return false;
        }
    }
    true
}

/// What becomes of a state by events.
fn after(alloc: Global, site: &Site, world: World, events: &[Event]) -> Result<World, ReplayFault>
    requires within { IsWithin (state_of world) }
    ensures within { IfOk result (λ world. IsWithin (state_of world)) }
{
    if !are_small(events) {
        return Err(ReplayFault::NoMemory);
    }
    if events.len() > 100 || world.serial > 0 {
        return Err(ReplayFault::NoMemory);
    }
    replay(alloc, site, world, events)
}

/// A block or an open write of a state, as a metaslab has it.
fn entry_of(key: &Key, held: &Held) -> Entry {
    Entry {
        pointer: Pointer {
            object: key.object,
            seq: key.seq,
            metaslab: 0,
            first: held.first,
            stripes: held.stripes,
            len: held.len,
            birth: held.birth,
            digest: held.digest,
        },
        stage: held.stage,
    }
}

/// Whether a table has just what a state has.
fn has_held(entries: &Entries, world: &World) -> bool {
    for (key, held) in world.tables.held.iter() {
        if entries.at(held.first) != Some(entry_of(key, held)) {
            return false;
        }
    }
    entries.count() == world.tables.held.len()
}

/// Whether the leaves of a state have the same logs in the slots.
fn has_logs(slots: &Slots, world: &World) -> bool {
    for (name, arm) in world.tables.arms.iter() {
        let ArmName::Leaf { leaf } = *name else {
            return false;
        };
        match slots.find(ArmKind::Leaf, leaf) {
            Some(at) if slots.log(at).runs() == arm.log.runs() => {}
            _ => return false,
        }
    }
    world.tables.arms.len() == 3
}

/// Whether a metaslab is as a state says.
fn agrees<R: Rack, A: Area>(shard: &Shard<R, A>, world: &World) -> bool {
    let sealed = world.sealed.is_some();
    has_groups(
        shard,
        world.open_group,
        world.closing,
        sealed,
        world.committed,
    ) && has_held(&shard.entries, world)
        && has_logs(&shard.slots, world)
}

/// Whether a new metaslab is as a shard by events in two parts, or why they don't go on.
fn leads<R: Rack, A: Area>(
    alloc: Global,
    site: &Site,
    shard: &Shard<R, A>,
    front: &[Event],
    back: &[Event],
) -> Result<bool, ReplayFault> {
    let Ok(world) = new_world(alloc, site, 1) else {
        return Err(ReplayFault::NoMemory);
    };
    let world = after(alloc, site, world, front)?;
    let world = after(alloc, site, world, back)?;
    Ok(agrees(shard, &world))
}

/// Whether a history may lead to the same without an event.
fn is_spare(event: &Event) -> bool {
    matches!(
        event,
        Event::Fetch { .. } | Event::Damage { .. } | Event::Put { .. }
    )
}

/// Whether a call on a leaf failed in an event.
fn has_failed(event: &Event) -> bool {
    match event {
        Event::Put { failed, .. } => !failed.as_slice().is_empty(),
        Event::Fetch { failed, .. } | Event::Seal { failed, .. } => !failed.is_empty(),
        Event::Damage { failed, .. } => *failed,
        _ => false,
    }
}

/// Whether what a shard stored leads to what it is, and doesn't without an event that isn't spare.
fn is_replayed<R: Rack, A: Area>(alloc: Global, site: &Site, shard: &Shard<R, A>) -> bool {
    let events = shard.events();
    for at in 0..events.len() {
        let led = leads(alloc, site, shard, &events[..at], &events[at + 1..]);
        if led == Ok(true) && !is_spare(&events[at]) {
            return false;
        }
    }
    leads(alloc, site, shard, events, &[]) == Ok(true)
}

/// Whether an empty metaslab does many calls, of which six fail on a leaf, and the 59 events that it stored are replayed.
pub fn stores<R: Rack, A: Area>(alloc: Global, shard: &mut Shard<R, A>) -> bool
    requires valid { Valid R.Rack shard.old }
{
    let Ok(site) = site_of(b"draid1:2d:3c", 3) else {
        return false;
    };
    if !call_all(alloc, shard) {
        return false;
    }
    let events = shard.events();
    let failed = events.iter().filter(|event| has_failed(event)).count();
    events.len() == 59 && failed == 6 && is_replayed(alloc, &site, shard)
}
