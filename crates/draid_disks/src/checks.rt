ghost use Rattle.std.specs.Prelude.{◌≡◌, ◌+◌, ◌<◌, ◌≤◌, ◌↔◌, ℕ, IfNone, IfSome, IsTrue, None, false, length, remove};
ghost use Rattle.draid_slots.specs.Faults.{MayDetach};
ghost use Rattle.draid_slots.specs.Table as table;
ghost use Rattle.draid_slots.specs.Table.{IsThere, arms_of, is_logged};
ghost use Rattle.draid_shard.specs.declared.shard.Shard.{Shard};
ghost use Rattle.draid_disks.specs.Checks.{AreAlike, Each, HasWholeOver, IsGoingRefused, IsLowestPass, LeastUpto, NoPass, beside, lesser, missed_over};
ghost use Rattle.draid_disks.specs.Replanning.{MayReplan};

use crate::attaching::can_replan;
use draid_area::Area;
use draid_names::{Arm, ArmAt, ArmKind, SlotFault};
use draid_rack::Rack;
use draid_shard::Shard;
use draid_slots::Slots;

/// Whether a rebuild can be planned again in each metaslab that has one.
pub fn can_replan_all<R: Rack, A: Area>(shards: &[Shard<R, A>]) -> bool
    ensures { IsTrue result ↔ Each (λ (shard : Shard R A). MayReplan shard.pass shard.last_pass shard.open_group) shards.now }
{
    for shard in shards {
        if !can_replan(shard) {
            return false;
        }
    }
    true
}

/// The lowest metaslab that has a pass, and the pass's number.
pub fn lowest_pass<R: Rack, A: Area>(shards: &[Shard<R, A>]) -> Option<(u32, u64)>
    ensures some { IfSome result (λ it. IsLowestPass shards.now it.0 it.1) }
    ensures none { IfNone result (NoPass shards.now) }
{
    for shard in shards {
        match shard.pass() {
            Some(pass) => return Some((shard.number, pass.number)),
            None => {}
        }
    }
    None
}

/// How many groups the arm at a place missed, over all metaslabs.
pub fn missed_over<R: Rack, A: Area>(shards: &[Shard<R, A>], at: ArmAt) -> u64
    requires few { length shards.now ≤ 64 }
    requires there { Each (λ (shard : Shard R A). IsThere shard.slots at) shards.now }
    ensures sum { result ≡ missed_over shards.now at }
    ensures none { result ≡ 0 → Each (λ (shard : Shard R A). (group : ℕ) → is_logged shard.slots at group ≡ false) shards.now }
{
    let mut missed = 0;
    for shard in shards {
        missed += shard.slots.log(at).count();
    }
    missed
}

/// Whether arms have a leaf.
fn has_leaf(arms: &[Arm]) -> bool
    ensures { result ≡ table.has_leaf arms.now }
{
    arms.iter().any(|arm| matches!(arm.kind, ArmKind::Leaf))
}

/// Whether they have one beside the arm at a place.
fn has_leaf_beside(arms: &[Arm], at: usize) -> bool
    requires { at < length arms.now }
    ensures { result ≡ table.has_leaf (remove arms.now at) }
{
    has_leaf(&arms[..at]) || has_leaf(&arms[at + 1..])
}

/// The lesser of two numbers, where there is a first one.
fn lesser(least: Option<u64>, missed: u64) -> u64
    ensures { result ≡ lesser least missed }
{
    match least {
        Some(less) => less.min(missed),
        None => missed,
    }
}

/// The least number of groups that an arm up to one, and beside the one at a place, missed over all metaslabs, by that of
/// the arms before it.
fn least_with<R: Rack, A: Area>(
    shards: &[Shard<R, A>],
    at: ArmAt,
    other: u32,
    least: Option<u64>,
) -> Option<u64>
    requires few { length shards.now ≤ 64 }
    requires there { Each (λ (shard : Shard R A). IsThere shard.slots (beside at other)) shards.now }
    ensures { LeastUpto shards.now at other least → LeastUpto shards.now at (other + 1) result }
{
    if other == at.arm {
        return least;
    }
    let place = ArmAt {
        slot: at.slot,
        arm: other,
    };
    Some(lesser(least, missed_over(shards, place)))
}

/// The least number of groups that another arm of the slot missed over all metaslabs. None where there is no other.
fn least_over<R: Rack, A: Area>(slots: &Slots, shards: &[Shard<R, A>], at: ArmAt) -> Option<u64>
    requires few { length shards.now ≤ 64 }
    requires slot { at.slot < slots.now.geometry.spec.children }
    requires alike { AreAlike slots.now shards.now }
    ensures { LeastUpto shards.now at (length (arms_of slots.now at.slot)) result }
{
    let mut least = None;
    for other in 0..slots.arms(at.slot).len() as u32 {
        least = least_with(shards, at, other, least);
    }
    least
}

/// Why the arm at a place can't go from its slot in each metaslab, all of which have the arms of these slots.
pub fn detach_fault<R: Rack, A: Area>(
    slots: &Slots,
    shards: &[Shard<R, A>],
    at: ArmAt,
) -> Option<SlotFault>
    requires few { length shards.now ≤ 64 }
    requires slot { at.slot < slots.now.geometry.spec.children }
    requires there { IsThere slots.now at }
    requires alike { AreAlike slots.now shards.now }
    ensures some { IfSome result (IsGoingRefused slots.now shards.now at) }
    ensures none { IfNone result (Each (λ (shard : Shard R A). (shard.pass ≡ None) × MayDetach shard.slots at) shards.now) }
    // One arm beside it has missed nothing in any of them.
    ensures whole { IfNone result (HasWholeOver shards.now at (length (arms_of slots.now at.slot))) }
{
    if let Some((metaslab, number)) = lowest_pass(shards) {
        return Some(SlotFault::PassRunning { metaslab, number });
    }
    if !has_leaf_beside(slots.arms(at.slot), at.arm as usize) {
        return Some(SlotFault::LastArm);
    }
    match least_over(slots, shards, at) {
        Some(0) => None,
        Some(groups) => Some(SlotFault::LogNotEmpty { groups }),
        None => unreachable!(),
    }
}
