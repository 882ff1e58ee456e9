//! Which slots of a pool are due for a spare, and which spares are free.
ghost use Rattle.std.specs.Prelude.{◌≡◌, ◌<◌, ◌≤◌, [], filter, length, IfOk, not, ◌==◌, ℕ};
ghost use Rattle.draid_slots.specs.Table.{IsTable, is_leaf_kind};
ghost use Rattle.draid_disks.specs.Checks.{AreAlike};
ghost use Rattle.draid_changes.specs.Dues.{AreFree, IsIdleIn, due_in, shown_from, shown_of};

use draid_agent::{Due, SlotState, due};
use draid_area::Area;
use draid_disks::missed_over;
use draid_names::{Arm, ArmAt, ArmKind, NoMemory};
use draid_rack::Rack;
use draid_shard::Shard;
use draid_slots::Slots;
use std::alloc::Global;

/// Whether an arm is a leaf.
fn is_leaf(arm: Arm) -> bool
    ensures { result ≡ is_leaf_kind arm.kind }
{
    matches!(arm.kind, ArmKind::Leaf)
}

/// What metaslabs that all have the arms of these slots show of one.
fn slot_state<R: Rack, A: Area>(slots: &Slots, shards: &[Shard<R, A>], slot: u32) -> SlotState
    requires few { length shards.now ≤ 64 }
    requires slot { slot < slots.now.geometry.spec.children }
    requires sound { IsTable slots.now }
    requires alike { AreAlike slots.now shards.now }
    ensures { result ≡ shown_of slots.now shards.now slot }
{
    let arms = slots.arms(slot);
    let first = arms[0];
    SlotState {
        slot,
        arms: arms.len() as u32,
        leaf: is_leaf(first),
        offline: first.offline,
        logged: missed_over(shards, ArmAt { slot, arm: 0 }),
    }
}

/// The same of all slots.
fn slot_states<R: Rack, A: Area>(
    alloc: Global,
    slots: &Slots,
    shards: &[Shard<R, A>],
) -> Result<Vec<SlotState>, NoMemory>
    requires few { length shards.now ≤ 64 }
    requires alike { AreAlike slots.now shards.now }
    ensures { IfOk result (λ states. states.items ≡ shown_from slots.now shards.now 0 slots.now.geometry.spec.children) }
{
    let mut states = Vec::new(alloc);
    for slot in 0..slots.children() {
        states.push(slot_state(slots, shards, slot))?;
    }
    Ok(states)
}

/// The slots that are due, ascending: each whose one arm is a leaf that is offline, or of which at least so many groups are
/// logged over all metaslabs, which all have the arms of these slots.
pub fn due_slots<R: Rack, A: Area>(
    alloc: Global,
    slots: &Slots,
    shards: &[Shard<R, A>],
    least: u64,
) -> Result<Vec<Due>, NoMemory>
    requires few { length shards.now ≤ 64 }
    requires alike { AreAlike slots.now shards.now }
    ensures { IfOk result (λ due. due.items ≡ due_in slots.now shards.now least) }
{
    let states = slot_states(alloc, slots, shards)?;
    due(alloc, &states, least)
}

/// The spares that no slot has and of which no detachment waits for its commit, ascending.
pub fn free_spares(alloc: Global, slots: &Slots) -> Result<Vec<u32>, NoMemory>
    ensures { IfOk result (λ free. AreFree (IsIdleIn slots.now) [] slots.now.geometry.spec.spares free.items) }
{
    let mut free = Vec::new(alloc);
    for spare in 0..slots.geometry().spec.spares {
        if slots.busy(spare).is_none() {
            free.push(spare)?;
        }
    }
    Ok(free)
}

/// Takes a spare out of the free ones.
pub(crate) fn take_out(free: &mut Vec<u32>, spare: u32)
    ensures { free.new.items ≡ filter (λ other. not (other == spare)) free.old.items }
{
    free.retain(|other| *other != spare);
}
