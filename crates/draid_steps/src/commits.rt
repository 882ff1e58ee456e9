ghost use Rattle.std.specs.Prelude.{◌≡◌, ◌<◌, ◌&&◌, ◌||◌, true, false, Some, None, IfOk, OnOk, option_map, if◌then◌else◌};
ghost use Rattle.draid_machine.specs.After as after;
ghost use Rattle.draid_machine.specs.Names.{has_segment, segment_eq};
ghost use Rattle.draid_machine.specs.State.{State};
ghost use Rattle.draid_machine.specs.Step.{CommitStep};
ghost use Rattle.draid_machine.specs.declared.names.ArmName.{ArmName};
ghost use Rattle.draid_machine.specs.declared.names.Key.{Key};
ghost use Rattle.draid_machine.specs.declared.names.Segment.{Segment};
ghost use Rattle.draid_world.specs.World.{AreLow, arm_in, arm_of, core_of, held_in, kept_in, loan_of, site_layout, state_of};

use draid_machine::{ArmName, Held, Key, Segment, Stage};
use draid_names::NoMemory;
use draid_world::sets::add_segment;
use draid_world::tables::{find, kept_for};
use draid_world::{Arm, Lent, Site, Tables, World};
use std::alloc::Global;
use std::collections::{BTreeMap, BTreeSet};

/// Whether a block is freed in a group up to one.
fn is_freed(held: &Held, group: u64) -> bool
    ensures { result ≡ after.is_freed_block group (Some held.now) }
{
    match held.stage {
        Stage::Freed { group: freed } => freed <= group,
        _ => false,
    }
}

/// Whether an arm was detached in a group up to one.
fn is_gone(arm: &Arm, group: u64) -> bool
    ensures { result ≡ after.is_gone_arm group (Some (arm_of arm.now)) }
{
    match arm.gone {
        Some(gone) => gone.group <= group,
        None => false,
    }
}

/// Whether a key's block is freed in a group up to one.
fn is_key_freed(tables: &Tables, key: Key, group: u64) -> bool
    ensures { result ≡ after.is_freed_block group (held_in tables.now.held.entries key) }
{
    match find(&tables.held, key) {
        Some(held) => is_freed(&held, group),
        None => false,
    }
}

/// Whether a segment is kept for a group up to one.
fn is_kept_by(kept: &BTreeMap<Segment, u64>, segment: Segment, group: u64) -> bool
    ensures { result ≡ after.is_kept_by group (kept_in kept.now.entries segment) }
{
    match kept_for(kept, segment) {
        Some(found) => found <= group,
        None => false,
    }
}

/// Whether a segment stays as a group is committed.
fn is_staying(site: &Site, world: &World, segment: &Segment, group: u64) -> bool
    requires low { AreLow (core_of world.now.tables) }
    ensures { result ≡ after.stays (site_layout site.now) group (state_of world.now) segment.now }
{
    if is_key_freed(&world.tables, segment.key, group) {
        return false;
    }
    let tables = &world.tables;
    !is_kept_by(&world.kept, *segment, group)
        || site.is_at_place(&tables.order, &tables.held, segment)
}

/// A segment joins a set, if it stays as a group is committed.
fn add_staying(
    site: &Site,
    world: &World,
    set: &mut BTreeSet<Segment>,
    segment: Segment,
    group: u64,
) -> Result<(), NoMemory>
    requires low { AreLow (core_of world.now.tables) }
    ensures { OnOk result ((s : Segment) → has_segment set.new.keys s
        ≡ ((segment_eq segment s && after.stays (site_layout site.now) group (state_of world.now) s) || has_segment set.old.keys s)) }
{
    if !is_staying(site, world, &segment, group) {
        return Ok(());
    }
    add_segment(set, segment)
}

/// The segments of a set that stay as a group is committed.
fn staying_of(
    alloc: Global,
    site: &Site,
    world: &World,
    set: &BTreeSet<Segment>,
    group: u64,
) -> Result<BTreeSet<Segment>, NoMemory>
    requires low { AreLow (core_of world.now.tables) }
    ensures { IfOk result (λ staying. (s : Segment) → has_segment staying.keys s
        ≡ (has_segment set.now.keys s && after.stays (site_layout site.now) group (state_of world.now) s)) }
{
    let mut staying = BTreeSet::new(alloc);
    for segment in set.iter() {
        add_staying(site, world, &mut staying, *segment, group)?;
    }
    Ok(staying)
}

/// Segments of freed blocks, and those kept for groups up to one, are kept no more.
fn drop_kept(tables: &Tables, kept: &mut BTreeMap<Segment, u64>, group: u64)
    ensures { (s : Segment) → kept_in kept.new.entries s
        ≡ (if after.is_freed_block group (held_in tables.now.held.entries s.key) || after.is_kept_by group (kept_in kept.old.entries s) then None
        else kept_in kept.old.entries s) }
{
    kept.retain(|segment, last| !is_key_freed(tables, segment.key, group) && *last > group);
}

/// Drops the blocks freed in groups up to one.
fn drop_freed(held: &mut BTreeMap<Key, Held>, group: u64)
    ensures { (k : Key) → held_in held.new.entries k ≡ (if after.is_freed_block group (held_in held.old.entries k) then None else held_in held.old.entries k) }
{
    held.retain(|_, block| !is_freed(block, group));
}

/// Drops the arms detached in groups up to one.
fn drop_gone(arms: &mut BTreeMap<ArmName, Arm>, group: u64)
    ensures { (n : ArmName) → arm_in arms.new.entries n ≡ (if after.is_gone_arm group (arm_in arms.old.entries n) then None else arm_in arms.old.entries n) }
{
    arms.retain(|_, arm| !is_gone(arm, group));
}

/// The loan counts no more, if its block is freed in a group up to one.
fn end_loan(tables: &Tables, loan: &mut Option<Lent>, group: u64)
    ensures { option_map loan_of loan.new
        ≡ after.keep_loan (λ k. after.is_freed_block group (held_in tables.now.held.entries k)) (option_map loan_of loan.old) }
{
    let ends = match loan {
        Some(lent) => is_key_freed(tables, lent.key, group),
        None => false,
    };
    if ends {
        *loan = None;
    }
}

/// Commits the sealed group, where that is legal.
pub fn commit(alloc: Global, site: &Site, world: &mut World, group: u64) -> Result<bool, NoMemory>
    requires low { AreLow (core_of world.old.tables) }
    ensures legal { IfOk result (λ b. b ≡ true → CommitStep (site_layout site.now) (state_of world.old) group (state_of world.new)) }
    ensures illegal { IfOk result (λ b. b ≡ false → (new : State) → CommitStep (site_layout site.now) (state_of world.old) group new → ⊥) }
{
    if world.closing != Some(group) || world.sealed.is_none() {
        return Ok(false);
    }
    let present = staying_of(alloc, site, world, &world.present, group)?;
    let aside = staying_of(alloc, site, world, &world.aside, group)?;
    let Some(image) = world.sealed.take() else {
        return Ok(false);
    };
    end_loan(&world.tables, &mut world.loan, group);
    drop_kept(&world.tables, &mut world.kept, group);
    drop_freed(&mut world.tables.held, group);
    drop_gone(&mut world.tables.arms, group);
    world.committed = group;
    world.version = image.version;
    world.closing = None;
    world.image = image;
    world.present = present;
    world.aside = aside;
    Ok(true)
}
