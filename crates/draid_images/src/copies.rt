ghost use Rattle.std.specs.Prelude.{◌≡◌, IfOk, OnOk, Some, option_map};
ghost use Rattle.draid_images.specs.Copies.{copied_arm, copied_core, copied_held, put_some, put_some_arm};
ghost use Rattle.draid_machine.specs.declared.names.ArmName.{ArmName};
ghost use Rattle.draid_machine.specs.declared.names.Key.{Key};
ghost use Rattle.draid_ranges.specs.Numbers.{Has, has};
ghost use Rattle.draid_world.specs.World.{arm_in, arm_of, core_of, held_in, pass_of};

use draid_dtl::Log;
use draid_machine::{ArmName, Held, Key, Stage};
use draid_names::NoMemory;
use draid_world::arms::{copy_order, enter_arm};
use draid_world::tables::enter;
use draid_world::{Arm, Tables, WorldPass};
use std::alloc::Global;
use std::collections::BTreeMap;

/// What a copy of the tables is for.
#[derive(Clone, Copy)]
pub enum Copying {
    /// The image of a group: its blocks, live, and the arms that are there.
    Sealing { group: u64 },
    /// The state that is opened from a group's image, without the groups above it in the logs.
    Opening { group: u64 },
}

/// The copy of a log.
fn copy_log(log: &Log, alloc: Global) -> Result<Log, NoMemory>
    ensures { IfOk result (λ copy. Has copy (has log.now)) }
{
    let runs = Vec::from_slice(alloc, log.runs())?;
    Ok(Log::of(runs))
}

/// What is copied of a block or a ticket.
fn copy_of(held: &Held, copying: Copying) -> Option<Held>
    ensures { result ≡ copied_held copying (Some held.now) }
{
    let Copying::Sealing { group } = copying else {
        return Some(*held);
    };
    let stays = match held.stage {
        Stage::Writing { .. } => false,
        Stage::Live => true,
        Stage::Freed { group: freed } => freed > group,
    };
    if !stays || held.birth > group {
        return None;
    }
    Some(Held {
        stage: Stage::Live,
        ..*held
    })
}

/// What is copied of an arm.
fn copy_arm(arm: &Arm, copying: Copying, alloc: Global) -> Result<Option<Arm>, NoMemory>
    ensures { IfOk result (λ copy. option_map arm_of copy ≡ copied_arm copying (Some (arm_of arm.now))) }
{
    let mut log = copy_log(&arm.log, alloc)?;
    match copying {
        Copying::Sealing { .. } => {
            if arm.gone.is_some() {
                return Ok(None);
            }
        }
        Copying::Opening { group } => log.cut_above(group),
    }
    Ok(Some(Arm {
        offline: arm.offline,
        fresh: arm.fresh,
        log,
        gone: arm.gone,
    }))
}

/// Puts a block or a ticket into a table, if there is one.
fn put_held(table: &mut BTreeMap<Key, Held>, key: Key, held: Option<Held>) -> Result<(), NoMemory>
    ensures { OnOk result ((k : Key) → held_in table.new.entries k ≡ put_some (held_in table.old.entries) key held k) }
{
    match held {
        Some(held) => enter(table, key, held),
        None => Ok(()),
    }
}

/// The copy of a table of blocks and tickets.
fn copy_held(
    table: &BTreeMap<Key, Held>,
    copying: Copying,
    alloc: Global,
) -> Result<BTreeMap<Key, Held>, NoMemory>
    ensures { IfOk result (λ copy. (k : Key) → held_in copy.entries k ≡ copied_held copying (held_in table.now.entries k)) }
{
    let mut copy = BTreeMap::new(alloc);
    for (key, held) in table.iter() {
        put_held(&mut copy, *key, copy_of(held, copying))?;
    }
    Ok(copy)
}

/// Puts an arm into a table, if there is one.
fn put_arm(
    table: &mut BTreeMap<ArmName, Arm>,
    name: ArmName,
    arm: Option<Arm>,
) -> Result<(), NoMemory>
    ensures { OnOk result ((n : ArmName) → arm_in table.new.entries n ≡ put_some_arm (arm_in table.old.entries) name (option_map arm_of arm) n) }
{
    match arm {
        Some(arm) => enter_arm(table, name, arm),
        None => Ok(()),
    }
}

/// The copy of a table of arms.
fn copy_arms(
    table: &BTreeMap<ArmName, Arm>,
    copying: Copying,
    alloc: Global,
) -> Result<BTreeMap<ArmName, Arm>, NoMemory>
    ensures { IfOk result (λ copy. (n : ArmName) → arm_in copy.entries n ≡ copied_arm copying (arm_in table.now.entries n)) }
{
    let mut copy = BTreeMap::new(alloc);
    for (name, arm) in table.iter() {
        let arm = copy_arm(arm, copying, alloc)?;
        put_arm(&mut copy, *name, arm)?;
    }
    Ok(copy)
}

/// The copy of a pass.
fn copy_pass(pass: &Option<WorldPass>, alloc: Global) -> Result<Option<WorldPass>, NoMemory>
    ensures { IfOk result (λ copy. option_map pass_of copy ≡ option_map pass_of pass.now) }
{
    let Some(pass) = pass else {
        return Ok(None);
    };
    let targets = Vec::from_slice(alloc, &pass.targets)?;
    Ok(Some(WorldPass {
        number: pass.number,
        kind: pass.kind,
        targets,
        max: pass.max,
        next: pass.next,
        errors: pass.errors,
        running: pass.running,
    }))
}

/// The copy of the tables.
pub fn copy_tables(tables: &Tables, copying: Copying, alloc: Global) -> Result<Tables, NoMemory>
    ensures { IfOk result (λ copy. core_of copy ≡ copied_core copying (core_of tables.now)) }
{
    let held = copy_held(&tables.held, copying, alloc)?;
    let arms = copy_arms(&tables.arms, copying, alloc)?;
    let order = copy_order(&tables.order, alloc)?;
    let pass = copy_pass(&tables.pass, alloc)?;
    Ok(Tables {
        held,
        arms,
        order,
        pass,
        last: tables.last,
    })
}
