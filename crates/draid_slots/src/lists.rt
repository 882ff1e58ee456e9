ghost use Rattle.std.specs.Prelude.{◌≡◌, ◌≢◌, ◌+◌, ◌<◌, ◌≤◌, ◌∷◌, ◌↔◌, [], ℕ, ◌^◌, All, None, true, false, map, length, IfOk, OnOk, IfSome, IfNone, IsTrue, slice_get, slice_index_or};
ghost use Rattle.draid_names.specs.declared.arm.ArmAt.{ArmAt};
ghost use Rattle.draid_ranges.specs.Numbers.{has};
ghost use Rattle.draid_slots.specs.Changes.{AreAllGrown, AreReserved, new_arm, switched_arm};
ghost use Rattle.draid_slots.specs.declared.slot.Slot.{Slot};
ghost use Rattle.draid_slots.specs.Table.{IsArmOf, IsPaired, arms_in, arms_listed, log_in, logs_in, logs_listed, no_log, was_spare_of};
ghost use Rattle.draid_slots.specs.Table as table;

use crate::slot::{Detached, Slot, has_spare, new_slot, place_of, reserve_logs, slot_of, switch};
use draid_dtl::Log;
use draid_names::{Arm, ArmAt, ArmKind, NoMemory};
use std::alloc::Global;

/// The slots of a new pool.
pub(crate) fn new_slots(alloc: Global, children: u32) -> Result<Vec<Slot>, NoMemory>
    ensures paired { IfOk result (λ slots. All IsPaired slots.items) }
    ensures count { IfOk result (λ slots. length slots.items ≡ children) }
    ensures arms { IfOk result (λ slots. (slot : ℕ) → slot < children → slice_index_or (map arms_in slots.items) slot [] ≡ new_arm slot ∷ []) }
    ensures logs { IfOk result (λ slots. (at : ArmAt) (group : ℕ) → has (log_in (map logs_in slots.items) at) group ≡ false) }
{
    let mut slots = Vec::with_capacity(alloc, children as usize)?;
    for number in 0..children {
        slots.push(new_slot(alloc, number)?)?;
    }
    Ok(slots)
}

/// The slots that have these arms with these logs.
pub(crate) fn slots_of(
    alloc: Global,
    mut listed: Vec<Vec<(Arm, Log)>>,
) -> Result<Vec<Slot>, NoMemory>
    requires { All (λ arms. length arms ≤ 3) (arms_listed listed.items) }
    ensures paired { IfOk result (λ slots. All IsPaired slots.items) }
    ensures arms { IfOk result (λ slots. map arms_in slots.items ≡ arms_listed listed.items) }
    ensures logs { IfOk result (λ slots. map logs_in slots.items ≡ logs_listed listed.items) }
{
    let mut slots = Vec::with_capacity(alloc, listed.len())?;
    while !listed.is_empty() {
        slots.push(slot_of(alloc, listed.remove(0))?)?;
    }
    Ok(slots)
}

/// Makes room for so many changes of each log.
pub(crate) fn reserve_slots(slots: &mut Vec<Slot>, changes: u32) -> Result<(), NoMemory>
    requires { All IsPaired slots.old.items }
    ensures paired { All IsPaired slots.new.items }
    ensures arms { map arms_in slots.new.items ≡ map arms_in slots.old.items }
    ensures logs { AreAllGrown (map logs_in slots.old.items) (map logs_in slots.new.items) }
    ensures reserved { OnOk result (AreReserved (map logs_in slots.new.items) (length slots.old.items) changes) }
{
    for at in 0..slots.len() {
        reserve_logs(&mut slots[at].logs, changes)?;
    }
    Ok(())
}

/// Makes room for so many changes of the log of each of so many arms that are still to come.
pub(crate) fn reserve_next(
    alloc: Global,
    next: &mut Vec<Log>,
    changes: u32,
    arms: usize,
) -> Result<(), NoMemory>
    ensures count { length next.old.items ≤ length next.new.items }
    ensures kept { (k : ℕ) → (slice_index_or next.old.items k no_log).room ≤ (slice_index_or next.new.items k no_log).room }
    ensures arms { OnOk result (arms ≤ length next.new.items) }
    ensures room { OnOk result ((k : ℕ) → k < length next.new.items → changes ≤ (slice_index_or next.new.items k no_log).room) }
{
    reserve_logs(next, changes)?;
    for _more in 0..arms.saturating_sub(next.len()) {
        let mut log = Log::new(alloc);
        log.reserve(changes)?;
        next.push(log)?;
    }
    Ok(())
}

/// Takes a leaf offline or online, wherever it is an arm.
pub(crate) fn switch_all(slots: &mut Vec<Slot>, leaf: u64, offline: bool)
    requires { All IsPaired slots.old.items }
    ensures paired { All IsPaired slots.new.items }
    ensures arms { map arms_in slots.new.items ≡ map (map (switched_arm leaf offline)) (map arms_in slots.old.items) }
    ensures logs { map logs_in slots.new.items ≡ map logs_in slots.old.items }
{
    for at in 0..slots.len() {
        switch(&mut slots[at].arms, leaf, offline);
    }
}

/// The first slot that has a spare as an arm.
pub(crate) fn slot_with(slots: &[Slot], spare: u32) -> Option<u32>
    requires { length slots.now < 2 ^ 32 }
    ensures has { IfSome result (λ slot. table.has_spare (slice_index_or (map arms_in slots.now) slot []) spare ≡ true) }
    ensures none { IfNone result ((slot : ℕ) → table.has_spare (slice_index_or (map arms_in slots.now) slot []) spare ≡ false) }
{
    for slot in 0..slots.len() {
        if has_spare(&slots[slot].arms, spare) {
            return Some(slot as u32);
        }
    }
    None
}

/// The place of the arm of this kind and number.
pub(crate) fn find_arm(slots: &[Slot], kind: ArmKind, number: u64) -> Option<ArmAt>
    requires few { length slots.now < 2 ^ 32 }
    requires arms { All (λ (slot : Slot). length (arms_in slot) ≤ 3) slots.now }
    ensures found { IfSome result (λ at. IsArmOf kind number (slice_get (slice_index_or (map arms_in slots.now) at.slot []) at.arm)) }
    ensures none { IfNone result ((at : ArmAt) → ¬ (IsArmOf kind number (slice_get (slice_index_or (map arms_in slots.now) at.slot []) at.arm))) }
{
    for slot in 0..slots.len() {
        if let Some(arm) = place_of(&slots[slot].arms, kind, number) {
            return Some(ArmAt {
                slot: slot as u32,
                arm,
            });
        }
    }
    None
}

/// The slot from which a spare was detached, while that isn't committed.
pub(crate) fn last_slot_of(detached: &[Detached], spare: u32) -> Option<u32>
    ensures was { IfSome result (λ slot. was_spare_of detached.now spare slot ≡ true) }
    ensures none { IfNone result ((slot : ℕ) → was_spare_of detached.now spare slot ≡ false) }
{
    for gone in detached {
        if matches!(gone.kind, ArmKind::Spare) && gone.number == u64::from(spare) {
            return Some(gone.slot);
        }
    }
    None
}
