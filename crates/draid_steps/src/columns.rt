ghost use Rattle.std.specs.Prelude.{◌≡◌, ◌<◌, ◌^◌, ◌&&◌, ◌||◌, not, true, false, ℕ, Some, IfNone, IfOk, IfSome, OnOk, IsSome, ◌+◌, ◌-◌, if◌then◌else◌};
ghost use Rattle.std.specs.List.{list_all, list_any};
ghost use Rattle.draid_machine.specs.After.{each_arm, log_if, put_state};
ghost use Rattle.draid_machine.specs.Arms as arms;
ghost use Rattle.draid_machine.specs.Names.{has_name, name_eq, has_segment, is_nil};
ghost use Rattle.draid_machine.specs.State.{State};
ghost use Rattle.draid_machine.specs.Step.{PutStep};
ghost use Rattle.draid_machine.specs.declared.names.ArmName.{ArmName};
ghost use Rattle.draid_machine.specs.declared.names.Segment.{Segment};
ghost use Rattle.draid_machine.specs.declared.names.Stage.TheVariants.{Writing};
ghost use Rattle.draid_steps.specs.Columns.{AreCounted, is_in_row, is_row, lands_right, MayLand};
ghost use Rattle.draid_world.specs.World.{AreLow, arm_in, core_of, held_in, names_at, site_layout, slot_at, state_of};

use draid_machine::{ArmName, Held, Key, Segment, Stage};
use draid_names::{NUMBERS, NoMemory};
use draid_world::arms::{enter_arm, is_among, names_of};
use draid_world::sets::add_segment;
use draid_world::tables::{change, find};
use draid_world::{Arm, Site, Tables, World};
use std::collections::{BTreeMap, BTreeSet};

/// A column of a block on an arm.
#[derive(Clone, Copy)]
pub struct ArmColumn {
    pub key: Key,
    pub column: u32,
    pub arm: ArmName,
}

/// Whether each arm of a list is one of a slot's.
fn are_listed(names: &[ArmName], landed: &[ArmName]) -> bool
    ensures { result ≡ list_all (has_name names.now) landed.now }
{
    for name in landed {
        if !is_among(names, *name) {
            return false;
        }
    }
    true
}

/// Whether an arm is listed as one on which a column landed exactly if it has to be.
fn is_right(
    site: &Site,
    tables: &Tables,
    stripe: u64,
    landed: &[ArmName],
    failed: &[u64],
    name: ArmName,
) -> bool
    requires stripe { stripe < 2 ^ 49 }
    ensures { result ≡ lands_right (site_layout site.now) (core_of tables.now) stripe landed.now failed.now name }
{
    if site.answers(tables, name, stripe) && !site.fails(tables, failed, name, stripe) {
        is_among(landed, name)
    } else {
        !is_among(landed, name)
    }
}

/// Whether a column landed on just the arms of its slot that answer and whose leaf didn't fail.
fn are_right(
    site: &Site,
    tables: &Tables,
    stripe: u64,
    names: &[ArmName],
    landed: &[ArmName],
    failed: &[u64],
) -> bool
    requires stripe { stripe < 2 ^ 49 }
    ensures { result ≡ list_all (lands_right (site_layout site.now) (core_of tables.now) stripe landed.now failed.now) names.now }
{
    for name in names {
        if !is_right(site, tables, stripe, landed, failed, *name) {
            return false;
        }
    }
    true
}

/// Whether some arm of a list lies on a leaf.
fn is_used(site: &Site, tables: &Tables, stripe: u64, names: &[ArmName], leaf: u64) -> bool
    requires stripe { stripe < 2 ^ 49 }
    ensures { result ≡ list_any (λ n. arms.lies (site_layout site.now) (core_of tables.now).order n stripe leaf) names.now }
{
    for name in names {
        if site.is_at(&tables.order, *name, stripe, leaf) {
            return true;
        }
    }
    false
}

/// Whether each leaf answers and has an arm of a list.
fn are_used(site: &Site, tables: &Tables, stripe: u64, names: &[ArmName], leaves: &[u64]) -> bool
    requires stripe { stripe < 2 ^ 49 }
    ensures { result ≡ list_all (λ leaf. list_any (λ n. arms.lies (site_layout site.now) (core_of tables.now).order n stripe leaf) names.now && arms.leaf_answers (core_of tables.now) leaf) leaves.now }
{
    for leaf in leaves {
        if !is_used(site, tables, stripe, names, *leaf) {
            return false;
        }
        if !tables.leaf_answers(*leaf) {
            return false;
        }
    }
    true
}

/// Logs a group for an arm, if it is known.
pub fn log_arm(arms: &mut BTreeMap<ArmName, Arm>, name: ArmName, group: u64) -> Result<(), NoMemory>
    requires group { group < NUMBERS }
    ensures { OnOk result ((n : ArmName) → arm_in arms.new.entries n ≡ each_arm (λ m. log_if (name_eq name m) group) (arm_in arms.old.entries) n) }
{
    let Some(mut arm) = arms.remove(&name) else {
        return Ok(());
    };
    arm.log.dirty(group)?;
    enter_arm(arms, name, arm)
}

/// Logs a group for an arm, unless a column landed on it.
fn log_unless(
    arms: &mut BTreeMap<ArmName, Arm>,
    landed: &[ArmName],
    name: ArmName,
    group: u64,
) -> Result<(), NoMemory>
    requires group { group < NUMBERS }
    ensures { OnOk result ((n : ArmName) → arm_in arms.new.entries n
        ≡ each_arm (λ m. log_if (name_eq name m && not (has_name landed.now m)) group) (arm_in arms.old.entries) n) }
{
    if is_among(landed, name) {
        return Ok(());
    }
    log_arm(arms, name, group)
}

/// Logs a group for the arms of a list on which a column didn't land.
pub fn log_missed(
    arms: &mut BTreeMap<ArmName, Arm>,
    names: &[ArmName],
    landed: &[ArmName],
    group: u64,
) -> Result<(), NoMemory>
    requires group { group < NUMBERS }
    ensures { OnOk result ((n : ArmName) → arm_in arms.new.entries n
        ≡ each_arm (λ m. log_if (has_name names.now m && not (has_name landed.now m)) group) (arm_in arms.old.entries) n) }
{
    for name in names {
        log_unless(arms, landed, *name, group)?;
    }
    Ok(())
}

/// Logs a group for the arms of a slot on which a column didn't land.
pub fn log_slot(
    tables: &mut Tables,
    slot: usize,
    landed: &[ArmName],
    group: u64,
) -> Result<(), NoMemory>
    requires group { group < NUMBERS }
    ensures logs { OnOk result ((n : ArmName) → arm_in tables.new.arms.entries n
        ≡ each_arm (λ m. log_if (has_name (names_at tables.old.order.items slot) m && not (has_name landed.now m)) group) (arm_in tables.old.arms.entries) n) }
    ensures rest { tables.new ≡ record tables.old { arms = tables.new.arms } }
{
    log_missed(
        &mut tables.arms,
        names_of(&tables.order, slot),
        landed,
        group,
    )
}

/// The segment of a column on an arm in a row joins a set, where the arm keeps it on a leaf.
fn add_row(
    site: &Site,
    order: &[Vec<ArmName>],
    segments: &mut BTreeSet<Segment>,
    held: &Held,
    part: ArmColumn,
    row: u32,
) -> Result<(), NoMemory>
    requires first { held.now.first < NUMBERS }
    ensures { OnOk result ((s : Segment) → has_segment segments.new.keys s
        ≡ (has_segment segments.old.keys s || is_in_row (site_layout site.now) (names_at order.now) part.key held.now part.column part.arm row s)) }
{
    let Some(leaf) = site.leaf_at(order, part.arm, held.first + u64::from(row)) else {
        return Ok(());
    };
    add_segment(
        segments,
        Segment {
            key: part.key,
            column: part.column,
            arm: part.arm,
            leaf,
            row,
        },
    )
}

/// The segments of a column on an arm join a set.
pub fn add_rows(
    site: &Site,
    order: &[Vec<ArmName>],
    segments: &mut BTreeSet<Segment>,
    held: &Held,
    part: ArmColumn,
) -> Result<(), NoMemory>
    requires first { held.now.first < NUMBERS }
    ensures { OnOk result ((s : Segment) → has_segment segments.new.keys s
        ≡ (has_segment segments.old.keys s || is_row (site_layout site.now) (names_at order.now) part.key held.now part.column part.arm held.now.stripes s)) }
{
    for row in 0..held.stripes {
        add_row(site, order, segments, held, part, row)?;
    }
    Ok(())
}

/// The segments of a column on the arms of a list join a set.
pub fn add_landed(
    site: &Site,
    order: &[Vec<ArmName>],
    segments: &mut BTreeSet<Segment>,
    key: Key,
    held: &Held,
    column: u32,
    landed: &[ArmName],
) -> Result<(), NoMemory>
    requires first { held.now.first < NUMBERS }
    ensures { OnOk result ((s : Segment) → has_segment segments.new.keys s
        ≡ (has_segment segments.old.keys s || list_any (λ n. is_row (site_layout site.now) (names_at order.now) key held.now column n held.now.stripes s) landed.now)) }
{
    for name in landed {
        let part = ArmColumn {
            key,
            column,
            arm: *name,
        };
        add_rows(site, order, segments, held, part)?;
    }
    Ok(())
}

/// Whether a ticket's column may land on these arms while calls fail on these leaves.
fn may_land(
    site: &Site,
    tables: &Tables,
    held: &Held,
    column: u32,
    landed: &[ArmName],
    failed: &[u64],
) -> bool
    requires first { held.now.first < NUMBERS }
    requires column { column < site.now.geometry.g }
    ensures yes { result ≡ true → MayLand (site_layout site.now) (core_of tables.now) held.now column landed.now failed.now }
    ensures no { result ≡ false → MayLand (site_layout site.now) (core_of tables.now) held.now column landed.now failed.now → ⊥ }
{
    let names = names_of(&tables.order, site.slot_of(held.first, column) as usize);
    if !are_listed(names, landed) {
        return false;
    }
    if !are_right(site, tables, held.first, names, landed, failed) {
        return false;
    }
    are_used(site, tables, held.first, names, failed)
}

/// How many columns landed nowhere, with one that landed on these arms.
fn count_missed(missed: u32, landed: &[ArmName]) -> u32
    requires { missed < 2 ^ 32 - 1 }
    ensures { result ≡ (if is_nil landed.now then missed + 1 else missed) }
{
    if landed.is_empty() {
        missed + 1
    } else {
        missed
    }
}

/// A ticket's column is written on the arms on which it landed, and logged for the others.
fn write_column(
    site: &Site,
    world: &mut World,
    key: Key,
    held: &Held,
    stage: (u32, u32),
    landed: &[ArmName],
) -> Result<(), NoMemory>
    requires first { held.now.first < NUMBERS }
    requires birth { held.now.birth < NUMBERS }
    requires column { stage.0 < site.now.geometry.g }
    requires missed { stage.1 < 2 ^ 32 - 1 }
    requires there { IsSome (held_in world.old.tables.held.entries key) }
    requires listed { (n : ArmName) → has_name landed.now n ≡ true
        → has_name (names_at world.old.tables.order.items (slot_at (site_layout site.now) held.now.first stage.0)) n ≡ true }
    ensures { OnOk result (state_of world.new ≡ put_state (site_layout site.now) (state_of world.old) key landed.now held.now stage.0 stage.1) }
{
    let (column, missed) = stage;
    let slot = site.slot_of(held.first, column) as usize;
    log_slot(&mut world.tables, slot, landed, held.birth)?;
    add_landed(
        site,
        &world.tables.order,
        &mut world.present,
        key,
        held,
        column,
        landed,
    )?;
    let missed = count_missed(missed, landed);
    let stage = Stage::Writing {
        columns: column + 1,
        missed,
    };
    change(&mut world.tables.held, key, Held { stage, ..*held });
    Ok(())
}

/// How many columns a ticket has put, and how many of them landed nowhere.
fn columns_put(stage: Stage) -> Option<(u32, u32)>
    ensures some { IfSome result (λ n. stage ≡ Writing n.0 n.1) }
    ensures none { IfNone result ((c m : ℕ) → stage ≡ Writing c m → ⊥) }
{
    match stage {
        Stage::Writing { columns, missed } => Some((columns, missed)),
        Stage::Live | Stage::Freed { .. } => None,
    }
}

/// Writes a ticket's next column, where that is legal: it landed on these arms, and calls on these leaves failed.
pub fn put(
    site: &Site,
    world: &mut World,
    key: Key,
    landed: &[ArmName],
    failed: &[u64],
) -> Result<bool, NoMemory>
    requires low { AreLow (core_of world.old.tables) }
    requires counted { AreCounted (core_of world.old.tables) }
    ensures legal { IfOk result (λ b. b ≡ true → PutStep (site_layout site.now) (state_of world.old) key landed.now failed.now (state_of world.new)) }
    ensures illegal { IfOk result (λ b. b ≡ false → (new : State) → PutStep (site_layout site.now) (state_of world.old) key landed.now failed.now new → ⊥) }
{
    let Some(held) = find(&world.tables.held, key) else {
        return Ok(false);
    };
    let Some((columns, missed)) = columns_put(held.stage) else {
        return Ok(false);
    };
    if columns >= site.geometry.g {
        return Ok(false);
    }
    if !may_land(site, &world.tables, &held, columns, landed, failed) {
        return Ok(false);
    }
    write_column(site, world, key, &held, (columns, missed), landed)?;
    Ok(true)
}
