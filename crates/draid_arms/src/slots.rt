ghost use Rattle.std.specs.Prelude.{◌≡◌, ◌<◌, ◌≤◌, ◌^◌, ◌⊎◌, ◌++◌, ◌∷◌, [], not, true, false, ℕ, Some, IfOk, OnOk, IsSome, filter, length};
ghost use Rattle.draid_machine.specs.After.{set_arm, set_order};
ghost use Rattle.draid_machine.specs.Names.{name_eq};
ghost use Rattle.draid_machine.specs.State as state;
ghost use Rattle.draid_machine.specs.declared.names.ArmName.{ArmName};
ghost use Rattle.draid_machine.specs.declared.names.Held.{Held};
ghost use Rattle.draid_machine.specs.declared.names.Key.{Key};
ghost use Rattle.draid_arms.specs.Rules.{fresh_arm};
ghost use Rattle.draid_world.specs.World.{arm_in, arm_of, gone_of, held_in, names_at};
ghost use Rattle.draid_world.specs.declared.world.Arm.{Arm};

use draid_dtl::Log;
use draid_machine::{ArmName, Held, Key};
use draid_names::{NUMBERS, NoMemory};
use draid_world::arms::is_same;
use draid_world::{Arm, Detached};
use std::alloc::Global;
use std::collections::BTreeMap;

/// Marks an arm that is known as detached.
pub(crate) fn set_gone(arms: &mut BTreeMap<ArmName, Arm>, name: ArmName, gone: Detached)
    requires there { IsSome (arm_in arms.old.entries name) }
    ensures { (a : state.Arm) → arm_in arms.old.entries name ≡ Some a
        → (n : ArmName) → arm_in arms.new.entries n ≡ set_arm (arm_in arms.old.entries) name (Some (record a { gone = Some (gone_of gone) })) n }
{
    if let Some(arm) = arms.get_mut(&name) {
        arm.gone = Some(gone);
    }
}

/// The arms of a list other than a given one stay.
fn take_out(names: &mut Vec<ArmName>, name: ArmName)
    ensures { names.new.items ≡ filter (λ m. not (name_eq name m)) names.old.items }
{
    names.retain(|other| !is_same(name, *other));
}

/// An arm leaves a slot.
pub(crate) fn leave(order: &mut Vec<Vec<ArmName>>, slot: usize, name: ArmName)
    ensures { (c : ℕ) → names_at order.new.items c
        ≡ set_order (names_at order.old.items) slot (filter (λ m. not (name_eq name m)) (names_at order.old.items slot)) c }
{
    if slot < order.len() {
        take_out(&mut order[slot], name);
    }
}

/// Makes place for the arms of a slot.
fn widen(alloc: Global, order: &mut Vec<Vec<ArmName>>, slot: usize) -> Result<(), NoMemory>
    requires slot { slot < 2 ^ 32 }
    ensures same { OnOk result ((c : ℕ) → names_at order.new.items c ≡ names_at order.old.items c) }
    ensures wide { OnOk result (slot < length order.new.items) }
{
    for _number in order.len()..slot + 1 {
        order.push(Vec::new(alloc))?;
    }
    Ok(())
}

/// An arm becomes the last of a slot that has a place.
fn push_arm(order: &mut Vec<Vec<ArmName>>, slot: usize, name: ArmName) -> Result<(), NoMemory>
    requires slot { slot < length order.old.items }
    ensures { OnOk result ((c : ℕ) → names_at order.new.items c
        ≡ set_order (names_at order.old.items) slot (names_at order.old.items slot ++ name ∷ []) c) }
{
    order[slot].push(name)?;
    Ok(())
}

/// An arm joins a slot as its last.
pub(crate) fn join(
    alloc: Global,
    order: &mut Vec<Vec<ArmName>>,
    slot: usize,
    name: ArmName,
) -> Result<(), NoMemory>
    requires slot { slot < 2 ^ 32 }
    ensures { OnOk result ((c : ℕ) → names_at order.new.items c
        ≡ set_order (names_at order.old.items) slot (names_at order.old.items slot ++ name ∷ []) c) }
{
    widen(alloc, order, slot)?;
    push_arm(order, slot, name)
}

/// The greatest of a group and the births of blocks and tickets.
pub(crate) fn last_group(held: &BTreeMap<Key, Held>, group: u64) -> u64
    requires group { group < NUMBERS }
    requires births { (k : Key) (h : Held) → held_in held.now.entries k ≡ Some h → h.birth < NUMBERS }
    ensures below { result < NUMBERS }
    ensures from { group ≤ result }
    ensures births { (k : Key) (h : Held) → held_in held.now.entries k ≡ Some h → h.birth ≤ result }
    ensures one { (result ≡ group) ⊎ ((k : Key) × (h : Held) × (held_in held.now.entries k ≡ Some h) × (h.birth ≡ result)) }
{
    let mut last = group;
    for (_, found) in held.iter() {
        last = last.max(found.birth);
    }
    last
}

/// An arm that is fresh, and may have missed each group up to one.
pub(crate) fn new_arm(alloc: Global, last: u64) -> Result<Arm, NoMemory>
    requires { last < NUMBERS }
    ensures { IfOk result (λ a. arm_of a ≡ fresh_arm last) }
{
    let log = Log::upto(alloc, last)?;
    Ok(Arm {
        offline: false,
        fresh: true,
        log,
        gone: None,
    })
}
