ghost use Rattle.std.specs.Prelude.{◌≡◌, ◌≢◌, ◌+◌, ◌<◌, ◌≤◌, ◌++◌, ◌↔◌, [], IsTrue, filter, length, vec_capacity};
ghost use Rattle.draid_machine.specs.Arms as arms;
ghost use Rattle.draid_machine.specs.State.{State};
ghost use Rattle.draid_slots.specs.States.{HasSlots};
ghost use Rattle.draid_slots.specs.Table.{IsTable, IsThere, arms_of};
ghost use Rattle.draid_plans.specs.Layout.{layout_with};
ghost use Rattle.draid_plans.specs.Targets.{HasTargetRoom, SuitKind, is_target, places_in, targets_of};

use draid_names::{ArmAt, ArmKind, PassKind};
use draid_slots::{Marks, Slots};

/// Whether a pass of a kind takes an arm as its target.
fn is_target(slots: &Slots, marks: &[Marks], kind: PassKind, at: ArmAt) -> bool
    requires slot { at.slot < slots.now.geometry.spec.children }
    requires there { IsThere slots.now at }
    requires count { slots.now.geometry.spec.children ≤ length marks.now }
    ensures { result ≡ is_target slots.now marks.now kind at }
{
    let arm = slots.arms(at.slot)[at.arm as usize];
    match kind {
        PassKind::Rebuild => arm.fresh && (matches!(arm.kind, ArmKind::Spare) || !arm.offline),
        PassKind::Heal => !marks[at.slot as usize][at.arm as usize],
    }
}

/// Whether it takes an arm of a slot.
fn has_target_in(slots: &Slots, marks: &[Marks], kind: PassKind, slot: u32) -> bool
    requires slot { slot < slots.now.geometry.spec.children }
    requires count { slots.now.geometry.spec.children ≤ length marks.now }
    ensures { IsTrue result ↔ (filter (is_target slots.now marks.now kind) (places_in slot (length (arms_of slots.now slot))) ≢ []) }
{
    for arm in 0..slots.arms(slot).len() {
        let at = ArmAt {
            slot,
            arm: arm as u32,
        };
        if is_target(slots, marks, kind, at) {
            return true;
        }
    }
    false
}

/// Whether a pass of a kind, planned now, would have a target.
pub fn has_target(slots: &Slots, marks: &[Marks], kind: PassKind) -> bool
    requires count { slots.now.geometry.spec.children ≤ length marks.now }
    ensures targets { IsTrue result ↔ (targets_of slots.now marks.now kind ≢ []) }
    ensures state { (w : State) → HasSlots slots.now w.core → SuitKind slots.now marks.now kind w.core
        → IsTrue result ↔ (arms.targets_of (layout_with slots.now) w.core kind ≢ []) }
{
    for slot in 0..slots.children() {
        if has_target_in(slots, marks, kind, slot) {
            return true;
        }
    }
    false
}

/// Lists those of a slot.
fn list_in_slot(slots: &Slots, marks: &[Marks], kind: PassKind, slot: u32, targets: &mut Vec<ArmAt>)
    requires slot { slot < slots.now.geometry.spec.children }
    requires count { slots.now.geometry.spec.children ≤ length marks.now }
    requires room { length targets.old.items + 3 ≤ vec_capacity targets.old }
    ensures listed { targets.new.items ≡ targets.old.items ++ filter (is_target slots.now marks.now kind) (places_in slot (length (arms_of slots.now slot))) }
    ensures few { length targets.new.items ≤ length targets.old.items + 3 }
    ensures room { vec_capacity targets.new ≡ vec_capacity targets.old }
{
    for arm in 0..slots.arms(slot).len() {
        let at = ArmAt {
            slot,
            arm: arm as u32,
        };
        if is_target(slots, marks, kind, at) {
            targets.push_reserved(at);
        }
    }
}

/// Makes a list that of the targets of a pass of a kind, in their order.
pub(crate) fn list_targets(slots: &Slots, marks: &[Marks], kind: PassKind, targets: &mut Vec<ArmAt>)
    requires count { slots.now.geometry.spec.children ≤ length marks.now }
    requires room { HasTargetRoom slots.now targets.old }
    ensures table { IsTable slots.now }
    ensures listed { targets.new.items ≡ targets_of slots.now marks.now kind }
    ensures room { vec_capacity targets.new ≡ vec_capacity targets.old }
{
    targets.clear();
    for slot in 0..slots.children() {
        list_in_slot(slots, marks, kind, slot, targets);
    }
}
