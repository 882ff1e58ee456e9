ghost use Rattle.std.specs.Prelude.{◌≡◌, ℕ, IfOk};
ghost use Rattle.draid_machine.specs.Created as machine;
ghost use Rattle.draid_machine.specs.Created.{IsReached};
ghost use Rattle.draid_machine.specs.Fitting.{IsVersion};
ghost use Rattle.draid_machine.specs.declared.names.ArmName.{ArmName};
ghost use Rattle.draid_replay.specs.Creation.{leaf_below, leaf_in};
ghost use Rattle.draid_replay.specs.Within.{IsWithin};
ghost use Rattle.draid_world.specs.World.{arm_in, arm_of, core_of, names_at, site_layout, state_of};

use draid_dtl::Log;
use draid_machine::ArmName;
use draid_names::NoMemory;
use draid_world::arms::enter_arm;
use draid_world::{Arm, Image, Site, Tables, World};
use std::alloc::Global;
use std::collections::{BTreeMap, BTreeSet};

/// The arm of a slot that is new.
fn new_arm(alloc: Global) -> Arm
    ensures { arm_of result ≡ machine.new_arm }
{
    Arm {
        offline: false,
        fresh: false,
        log: Log::new(alloc),
        gone: None,
    }
}

/// The arms of so many slots, each with the leaf of its number.
fn new_arms(alloc: Global, slots: u32) -> Result<BTreeMap<ArmName, Arm>, NoMemory>
    ensures { IfOk result (λ arms. (n : ArmName) → arm_in arms.entries n ≡ leaf_below slots n) }
{
    let mut arms = BTreeMap::new(alloc);
    for slot in 0..slots {
        let name = ArmName::Leaf {
            leaf: u64::from(slot),
        };
        enter_arm(&mut arms, name, new_arm(alloc))?;
    }
    Ok(arms)
}

/// The arms of each of so many slots.
fn new_order(alloc: Global, slots: u32) -> Result<Vec<Vec<ArmName>>, NoMemory>
    ensures { IfOk result (λ order. (c : ℕ) → names_at order.items c ≡ leaf_in slots c) }
{
    let mut order = Vec::new(alloc);
    for slot in 0..slots {
        let mut names = Vec::new(alloc);
        names.push(ArmName::Leaf {
            leaf: u64::from(slot),
        })?;
        order.push(names)?;
    }
    Ok(order)
}

/// What a new metaslab and its image have in common.
fn new_tables(alloc: Global, site: &Site) -> Result<Tables, NoMemory>
    ensures { IfOk result (λ tables. core_of tables ≡ machine.created_core (site_layout site.now)) }
{
    let slots = site.geometry.spec.children;
    let arms = new_arms(alloc, slots)?;
    let order = new_order(alloc, slots)?;
    Ok(Tables {
        held: BTreeMap::new(alloc),
        arms,
        order,
        pass: None,
        last: 0,
    })
}

/// A new metaslab of a pool of version 1 or 2: each slot has the leaf of its number, and group 1 is committed with
/// no block.
pub fn new_world(alloc: Global, site: &Site, version: u32) -> Result<World, NoMemory>
    requires version { IsVersion version }
    ensures state { IfOk result (λ world. state_of world ≡ machine.created (site_layout site.now) version) }
    ensures reached { IfOk result (λ world. IsReached (site_layout site.now) (state_of world)) }
    ensures within { IfOk result (λ world. IsWithin (state_of world)) }
    ensures serial { IfOk result (λ world. world.serial ≡ 0) }
{
    let tables = new_tables(alloc, site)?;
    let image = Image {
        group: 1,
        version,
        tables: new_tables(alloc, site)?,
    };
    Ok(World {
        open_group: 2,
        closing: None,
        committed: 1,
        version,
        asked: version,
        tables,
        serial: 0,
        loan: None,
        image,
        sealed: None,
        present: BTreeSet::new(alloc),
        aside: BTreeSet::new(alloc),
        kept: BTreeMap::new(alloc),
    })
}
