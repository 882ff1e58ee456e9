ghost use Rattle.std.specs.Prelude.{◌≡◌, ◌<◌, ◌&&◌, ◌||◌, true, false, Some, IfOk, OnOk, option_map};
ghost use Rattle.draid_images.specs.Openings.{IsChosen, IsLowImage};
ghost use Rattle.draid_machine.specs.After as after;
ghost use Rattle.draid_machine.specs.Claims as claims;
ghost use Rattle.draid_machine.specs.Names as names;
ghost use Rattle.draid_machine.specs.State as state;
ghost use Rattle.draid_machine.specs.Step.{ReopenStep};
ghost use Rattle.draid_machine.specs.declared.names.Held.{Held};
ghost use Rattle.draid_machine.specs.declared.names.Key.{Key};
ghost use Rattle.draid_machine.specs.declared.names.Segment.{Segment};
ghost use Rattle.draid_world.specs.World.{AreLow, core_of, held_in, image_of, names_at, pass_of, site_layout, state_of};

use crate::copies::{Copying, copy_tables};
use draid_machine::{ArmName, Held, Key, Segment, Stage};
use draid_names::{NUMBERS, NoMemory};
use draid_passes::is_block;
use draid_steps::columns::add_landed;
use draid_world::arms::{is_among, names_of};
use draid_world::sets::add_segment;
use draid_world::tables::find;
use draid_world::{Site, Tables, World, WorldPass};
use std::alloc::Global;
use std::collections::{BTreeMap, BTreeSet};

/// Whether a column of a block or a ticket was put.
fn is_put(stage: Stage, column: u32) -> bool
    ensures { result ≡ names.is_put stage column }
{
    match stage {
        Stage::Writing { columns, .. } => column < columns,
        Stage::Live | Stage::Freed { .. } => true,
    }
}

/// Whether a running pass without errors has passed a row of a block on one of its targets.
fn is_passed(pass: &Option<WorldPass>, name: ArmName, held: &Held, row: u32) -> bool
    requires first { held.now.first < NUMBERS }
    ensures { result ≡ claims.passed (option_map pass_of pass.now) name held.now row }
{
    match pass {
        Some(pass) => {
            pass.running
                && pass.errors == 0
                && is_among(&pass.targets, name)
                && held.birth <= pass.max
                && held.first + u64::from(row) < pass.next
        }
        None => false,
    }
}

/// Whether a segment has to be there.
fn is_claimed(site: &Site, tables: &Tables, segment: &Segment) -> bool
    requires low { AreLow (core_of tables.now) }
    ensures { result ≡ claims.claims (site_layout site.now) (core_of tables.now) segment.now }
{
    let Some(held) = find(&tables.held, segment.key) else {
        return false;
    };
    let Some(arm) = tables.arms.get(&segment.arm) else {
        return false;
    };
    if !site.is_on(&tables.order, segment, &held) {
        return false;
    }
    if !is_put(held.stage, segment.column) {
        return false;
    }
    if !arm.log.contains(held.birth) {
        return true;
    }
    is_block(held.stage) && is_passed(&tables.pass, segment.arm, &held, segment.row)
}

/// A segment joins a set, if it has to be there.
fn add_claimed(
    site: &Site,
    tables: &Tables,
    set: &mut BTreeSet<Segment>,
    segment: Segment,
) -> Result<(), NoMemory>
    requires low { AreLow (core_of tables.now) }
    ensures { OnOk result ((s : Segment) → names.has_segment set.new.keys s
        ≡ ((names.segment_eq segment s && claims.claims (site_layout site.now) (core_of tables.now) s) || names.has_segment set.old.keys s)) }
{
    if !is_claimed(site, tables, &segment) {
        return Ok(());
    }
    add_segment(set, segment)
}

/// The segments of a set that have to be there.
fn claimed_of(
    alloc: Global,
    site: &Site,
    tables: &Tables,
    set: &BTreeSet<Segment>,
) -> Result<BTreeSet<Segment>, NoMemory>
    requires low { AreLow (core_of tables.now) }
    ensures { IfOk result (λ claimed. (s : Segment) → names.has_segment claimed.keys s
        ≡ (names.has_segment set.now.keys s && claims.claims (site_layout site.now) (core_of tables.now) s)) }
{
    let mut claimed = BTreeSet::new(alloc);
    for segment in set.iter() {
        add_claimed(site, tables, &mut claimed, *segment)?;
    }
    Ok(claimed)
}

/// The segments of a list that have to be there join a set.
fn add_all_claimed(
    site: &Site,
    tables: &Tables,
    set: &mut BTreeSet<Segment>,
    segments: &[Segment],
) -> Result<(), NoMemory>
    requires low { AreLow (core_of tables.now) }
    ensures { OnOk result ((s : Segment) → names.has_segment set.new.keys s
        ≡ (names.has_segment set.old.keys s || (names.has_segment segments.now s && claims.claims (site_layout site.now) (core_of tables.now) s))) }
{
    for segment in segments {
        add_claimed(site, tables, set, *segment)?;
    }
    Ok(())
}

/// All segments of a block or a ticket join a set.
fn add_block(
    site: &Site,
    order: &[Vec<ArmName>],
    set: &mut BTreeSet<Segment>,
    key: Key,
    held: &Held,
) -> Result<(), NoMemory>
    requires first { held.now.first < NUMBERS }
    ensures kept { OnOk result ((s : Segment) → names.has_segment set.old.keys s ≡ true → names.has_segment set.new.keys s ≡ true) }
    ensures added { OnOk result ((s : Segment) → key ≡ s.key → claims.is_on (site_layout site.now) (names_at order.now) s held.now ≡ true
        → names.has_segment set.new.keys s ≡ true) }
{
    for column in 0..site.geometry.g {
        let names = names_of(order, site.slot_of(held.first, column) as usize);
        add_landed(site, order, set, key, held, column, names)?;
    }
    Ok(())
}

/// All segments of blocks and tickets.
fn all_segments(alloc: Global, site: &Site, tables: &Tables) -> Result<BTreeSet<Segment>, NoMemory>
    requires low { AreLow (core_of tables.now) }
    ensures { IfOk result (λ set. (s : Segment) (h : Held) → held_in tables.now.held.entries s.key ≡ Some h
        → claims.is_on (site_layout site.now) (names_at tables.now.order.items) s h ≡ true → names.has_segment set.keys s ≡ true) }
{
    let mut set = BTreeSet::new(alloc);
    for (key, held) in tables.held.iter() {
        add_block(site, &tables.order, &mut set, *key, held)?;
    }
    Ok(set)
}

/// The segments that have to be there.
fn all_claimed(alloc: Global, site: &Site, tables: &Tables) -> Result<BTreeSet<Segment>, NoMemory>
    requires low { AreLow (core_of tables.now) }
    ensures { IfOk result (λ claimed. (s : Segment) → names.has_segment claimed.keys s ≡ claims.claims (site_layout site.now) (core_of tables.now) s) }
{
    let all = all_segments(alloc, site, tables)?;
    claimed_of(alloc, site, tables, &all)
}

/// The segments of a set and of a list that have to be there.
fn both_claimed(
    alloc: Global,
    site: &Site,
    tables: &Tables,
    set: &BTreeSet<Segment>,
    more: &[Segment],
) -> Result<BTreeSet<Segment>, NoMemory>
    requires low { AreLow (core_of tables.now) }
    ensures { IfOk result (λ claimed. (s : Segment) → names.has_segment claimed.keys s
        ≡ ((names.has_segment set.now.keys s || names.has_segment more.now s) && claims.claims (site_layout site.now) (core_of tables.now) s)) }
{
    let mut claimed = claimed_of(alloc, site, tables, set)?;
    add_all_claimed(site, tables, &mut claimed, more)?;
    Ok(claimed)
}

/// Takes the sealed image for the committed one, where its group is opened; whether there is an image of the group.
fn choose(world: &mut World, group: u64) -> bool
    ensures chosen { result ≡ true → IsChosen (state_of world.old) group (image_of world.new.image) }
    ensures none { result ≡ false → (image : state.Image) → IsChosen (state_of world.old) group image → ⊥ }
    ensures rest { world.new ≡ record world.old { image = world.new.image; sealed = world.new.sealed } }
{
    if world.committed == group {
        return true;
    }
    if world.closing != Some(group) {
        return false;
    }
    let Some(image) = world.sealed.take() else {
        return false;
    };
    world.image = image;
    true
}

/// Opens the metaslab from the record of a group, where that is legal.
pub fn reopen(
    alloc: Global,
    site: &Site,
    world: &mut World,
    group: u64,
    doubtful: &[Segment],
) -> Result<bool, NoMemory>
    requires image { IsLowImage (image_of world.old.image) }
    requires sealed { (i : state.Image) → (state_of world.old).sealed ≡ Some i → IsLowImage i }
    ensures legal { IfOk result (λ b. b ≡ true → ReopenStep (site_layout site.now) (state_of world.old) group doubtful.now (state_of world.new)) }
    ensures illegal { IfOk result (λ b. b ≡ false → (new : state.State) → ReopenStep (site_layout site.now) (state_of world.old) group doubtful.now new → ⊥) }
{
    if !choose(world, group) {
        return Ok(false);
    }
    open(alloc, site, world, doubtful)?;
    Ok(true)
}

/// The state of the committed image.
fn open(alloc: Global, site: &Site, world: &mut World, doubtful: &[Segment]) -> Result<(), NoMemory>
    requires image { IsLowImage (image_of world.old.image) }
    ensures { OnOk result (state_of world.new ≡ after.reopen_state (site_layout site.now) (state_of world.old) (image_of world.old.image) doubtful.now) }
{
    let image = &world.image;
    let last = image.group;
    let version = image.version;
    let tables = copy_tables(&image.tables, Copying::Opening { group: last }, alloc)?;
    let present = all_claimed(alloc, site, &image.tables)?;
    let aside = both_claimed(alloc, site, &image.tables, &world.aside, doubtful)?;
    world.open_group = last + 1;
    world.closing = None;
    world.committed = last;
    world.version = version;
    world.asked = version;
    world.tables = tables;
    world.serial = 0;
    world.loan = None;
    world.sealed = None;
    world.present = present;
    world.aside = aside;
    world.kept = BTreeMap::new(alloc);
    Ok(())
}
