ghost use Rattle.std.specs.Prelude.{◌≡◌, ◌<◌, true, false, Some, None, IfSome, IfNone, IfOk, OnOk, IsSome, ℕ};
ghost use Rattle.draid_machine.specs.After.{set_arm};
ghost use Rattle.draid_machine.specs.Arms as arms;
ghost use Rattle.draid_machine.specs.State as state;
ghost use Rattle.draid_machine.specs.declared.names.ArmName.{ArmName};
ghost use Rattle.draid_world.specs.declared.world.Arm.{Arm};
ghost use Rattle.draid_machine.specs.Names.{has_name, name_eq};
ghost use Rattle.draid_world.specs.World.{arm_in, arm_of, names_at, switched};

use crate::world::Arm;
use draid_machine::ArmName;
use draid_names::NoMemory;
use std::alloc::Global;
use std::collections::BTreeMap;

/// Whether two names are one.
pub fn is_same(one: ArmName, other: ArmName) -> bool
    ensures { result ≡ name_eq one other }
{
    match (one, other) {
        (ArmName::Leaf { leaf: a }, ArmName::Leaf { leaf: b }) => a == b,
        (ArmName::Spare { spare: a }, ArmName::Spare { spare: b }) => a == b,
        _ => false,
    }
}

/// Whether an arm is one of a list.
pub fn is_among(names: &[ArmName], name: ArmName) -> bool
    ensures { result ≡ has_name names.now name }
{
    for found in names {
        if is_same(*found, name) {
            return true;
        }
    }
    false
}

/// The arms of a slot.
pub fn names_of(order: &[Vec<ArmName>], slot: usize) -> &[ArmName]
    ensures { result.now ≡ names_at order.now slot }
{
    if slot < order.len() {
        &order[slot]
    } else {
        &[]
    }
}

/// The copy of the arms of each slot.
pub fn copy_order(order: &[Vec<ArmName>], alloc: Global) -> Result<Vec<Vec<ArmName>>, NoMemory>
    ensures { IfOk result (λ copy. (c : ℕ) → names_at copy.items c ≡ names_at order.now c) }
{
    let mut copy = Vec::new(alloc);
    for at in 0..order.len() {
        let names = Vec::from_slice(alloc, names_of(order, at))?;
        copy.push(names)?;
    }
    Ok(copy)
}

/// The slot that has an arm.
pub fn slot_with(order: &[Vec<ArmName>], name: ArmName) -> Option<usize>
    ensures some { IfSome result (λ c. has_name (names_at order.now c) name ≡ true) }
    ensures none { IfNone result ((c : ℕ) → has_name (names_at order.now c) name ≡ false) }
{
    for slot in 0..order.len() {
        if is_among(names_of(order, slot), name) {
            return Some(slot);
        }
    }
    None
}

/// An arm becomes known.
pub fn enter_arm(arms: &mut BTreeMap<ArmName, Arm>, name: ArmName, arm: Arm) -> Result<(), NoMemory>
    ensures { OnOk result ((n : ArmName) → arm_in arms.new.entries n ≡ set_arm (arm_in arms.old.entries) name (Some (arm_of arm)) n) }
{
    match arms.insert(name, arm) {
        Ok(_) => Ok(()),
        Err(_) => Err(NoMemory),
    }
}

/// Sets whether a leaf that is known is offline.
pub fn set_offline(arms: &mut BTreeMap<ArmName, Arm>, name: ArmName, offline: bool)
    requires there { IsSome (arm_in arms.old.entries name) }
    ensures { (a : state.Arm) → arm_in arms.old.entries name ≡ Some a
        → (n : ArmName) → arm_in arms.new.entries n ≡ set_arm (arm_in arms.old.entries) name (Some (switched a offline)) n }
{
    if let Some(arm) = arms.get_mut(&name) {
        arm.offline = offline;
    }
}

/// The first leaf of a list.
pub fn first_leaf(names: &[ArmName]) -> Option<u64>
    ensures { result ≡ arms.first_leaf names.now }
{
    for name in names {
        if let ArmName::Leaf { leaf } = *name {
            return Some(leaf);
        }
    }
    None
}

/// The first spare of a list.
pub fn first_spare(names: &[ArmName]) -> Option<u32>
    ensures { result ≡ arms.first_spare names.now }
{
    for name in names {
        if let ArmName::Spare { spare } = *name {
            return Some(spare);
        }
    }
    None
}
