ghost use Rattle.std.specs.Prelude.{◌≡◌, ◌≢◌, ◌==◌, ◌+◌, ◌*◌, ◌^◌, ◌<◌, ◌≤◌, ◌∷◌, ◌++◌, [], ℕ, Some, true, false, All, map, remove, length, IfOk, OnOk, IfSome, IfNone, IsTrue, ◌↔◌, slice_get, slice_index_or, vec_len, vec_capacity};
ghost use Rattle.draid_ranges.specs.Numbers.{has};
ghost use Rattle.draid_slots.specs.Changes.{AreGrown, new_arm, switched_arm};
ghost use Rattle.draid_slots.specs.Faults.{IsLeastCount};
ghost use Rattle.draid_slots.specs.Reading as reading;
ghost use Rattle.draid_names.specs.declared.arm.Arm.{Arm};
ghost use Rattle.draid_slots.specs.Table.{IsArmOf, IsPaired, arms_in, logs_in, no_log};
ghost use Rattle.draid_slots.specs.Table as table;

use draid_dtl::Log;
use draid_names::{Arm, ArmKind, NoMemory};
use std::alloc::Global;

/// How many arms a slot may have.
pub(crate) const MOST_ARMS: usize = 3;

/// The arms of a child slot in the order of attachment, and the log of each.
#[derive(Drop)]
pub(crate) struct Slot {
    pub arms: Vec<Arm>,
    pub logs: Vec<Log>,
}

/// An arm that was detached in a group that isn't committed.
#[derive(Clone, Copy)]
pub struct Detached {
    pub kind: ArmKind,
    pub number: u64,
    /// The slot that it was an arm of.
    pub slot: u32,
    /// The open group of its detachment.
    pub group: u64,
    /// Whether it was a leaf that was offline then.
    pub offline: bool,
}

/// The arm of a slot that a column is read from.
#[derive(Clone, Copy, PartialEq, Eq)]
pub struct ReadArm {
    pub arm: u32,
    /// Whether its log lacks the group in which the block was born.
    pub clean: bool,
}

/// Marks of a slot's arms, by their order.
pub type Marks = [bool; 3];

/// Lists with room for as many arms as a slot may have.
fn empty_slot(alloc: Global) -> Result<Slot, NoMemory>
    ensures { IfOk result (λ slot. IsPaired slot × (arms_in slot ≡ []) × (logs_in slot ≡ [])) }
{
    let arms = Vec::with_capacity(alloc, MOST_ARMS)?;
    let logs = Vec::with_capacity(alloc, MOST_ARMS)?;
    Ok(Slot { arms, logs })
}

/// The slot of a new pool.
pub(crate) fn new_slot(alloc: Global, number: u32) -> Result<Slot, NoMemory>
    ensures paired { IfOk result IsPaired }
    ensures arms { IfOk result (λ slot. arms_in slot ≡ new_arm number ∷ []) }
    ensures logs { IfOk result (λ slot. (k group : ℕ) → has (slice_index_or (logs_in slot) k no_log) group ≡ false) }
{
    let mut slot = empty_slot(alloc)?;
    let leaf = Arm {
        kind: ArmKind::Leaf,
        number: u64::from(number),
        offline: false,
        fresh: false,
    };
    add_arm(&mut slot, leaf, Log::new(alloc));
    Ok(slot)
}

/// The slot that has these arms with these logs.
pub(crate) fn slot_of(alloc: Global, mut listed: Vec<(Arm, Log)>) -> Result<Slot, NoMemory>
    requires { length listed.items ≤ 3 }
    ensures paired { IfOk result IsPaired }
    ensures arms { IfOk result (λ slot. arms_in slot ≡ map (λ p. p.0) listed.items) }
    ensures logs { IfOk result (λ slot. logs_in slot ≡ map (λ p. p.1) listed.items) }
{
    let mut slot = empty_slot(alloc)?;
    while !listed.is_empty() {
        let (arm, log) = listed.remove(0);
        add_arm(&mut slot, arm, log);
    }
    Ok(slot)
}

/// Adds an arm behind the others.
pub(crate) fn add_arm(slot: &mut Slot, arm: Arm, log: Log)
    requires paired { IsPaired slot.old }
    requires room { length (arms_in slot.old) < 3 }
    ensures paired { IsPaired slot.new }
    ensures arms { arms_in slot.new ≡ arms_in slot.old ++ arm ∷ [] }
    ensures logs { logs_in slot.new ≡ logs_in slot.old ++ log ∷ [] }
{
    slot.arms.push_reserved(arm);
    slot.logs.push_reserved(log);
}

/// Takes an arm out, with its log.
pub(crate) fn remove_arm(slot: &mut Slot, at: usize) -> Arm
    requires paired { IsPaired slot.old }
    requires there { at < length (arms_in slot.old) }
    ensures arm { result ≡ slice_index_or (arms_in slot.old) at result }
    ensures paired { IsPaired slot.new }
    ensures arms { arms_in slot.new ≡ remove (arms_in slot.old) at }
    ensures logs { logs_in slot.new ≡ remove (logs_in slot.old) at }
{
    slot.logs.remove(at);
    slot.arms.remove(at)
}

/// Makes room for so many changes of each log.
pub(crate) fn reserve_logs(logs: &mut Vec<Log>, changes: u32) -> Result<(), NoMemory>
    ensures grown { AreGrown logs.old.items logs.new.items 0 0 }
    ensures reserved { OnOk result (AreGrown logs.old.items logs.new.items (length logs.old.items) changes) }
    ensures capacity { vec_capacity logs.new ≡ vec_capacity logs.old }
{
    for at in 0..logs.len() {
        logs[at].reserve(changes)?;
    }
    Ok(())
}

/// The arm, taken offline or online where it is this leaf.
fn switched(arm: Arm, leaf: u64, offline: bool) -> Arm
    ensures { result ≡ switched_arm leaf offline arm }
{
    if matches!(arm.kind, ArmKind::Leaf) && arm.number == leaf {
        Arm { offline, ..arm }
    } else {
        arm
    }
}

/// Takes a leaf offline or online.
pub(crate) fn switch(arms: &mut Vec<Arm>, leaf: u64, offline: bool)
    ensures arms { arms.new.items ≡ map (switched_arm leaf offline) arms.old.items }
    ensures capacity { vec_capacity arms.new ≡ vec_capacity arms.old }
{
    for at in 0..arms.len() {
        arms[at] = switched(arms[at], leaf, offline);
    }
}

/// Whether the arm is a leaf.
pub(crate) fn is_leaf(arm: Arm) -> bool
    ensures { result ≡ table.is_leaf arm }
{
    matches!(arm.kind, ArmKind::Leaf)
}

/// The first leaf of the arms.
pub(crate) fn first_leaf(arms: &[Arm]) -> Arm
    requires { table.has_leaf arms.now ≡ true }
    ensures { reading.first_leaf arms.now ≡ Some result }
{
    for arm in arms {
        if matches!(arm.kind, ArmKind::Leaf) {
            return *arm;
        }
    }
    unreachable!()
}

/// The first spare of the arms.
pub(crate) fn first_spare(arms: &[Arm]) -> Option<u32>
    requires { All (λ (arm : Arm). table.is_spare_kind arm.kind ≡ true → arm.number < 2 ^ 32) arms.now }
    ensures { result ≡ table.first_spare arms.now }
{
    for arm in arms {
        if matches!(arm.kind, ArmKind::Spare) {
            return Some(arm.number as u32);
        }
    }
    None
}

/// The place of the arm of this kind and number.
pub(crate) fn place_of(arms: &[Arm], kind: ArmKind, number: u64) -> Option<u32>
    requires { length arms.now ≤ 3 }
    ensures found { IfSome result (λ at. (at < length arms.now) × IsArmOf kind number (slice_get arms.now at)) }
    ensures none { IfNone result ((at : ℕ) → ¬ (IsArmOf kind number (slice_get arms.now at))) }
{
    for at in 0..arms.len() {
        if arms[at].kind == kind && arms[at].number == number {
            return Some(at as u32);
        }
    }
    None
}

/// Whether the arms have this spare.
pub(crate) fn has_spare(arms: &[Arm], spare: u32) -> bool
    ensures { result ≡ table.has_spare arms.now spare }
{
    arms.iter().any(|arm| matches!(arm.kind, ArmKind::Spare) && arm.number == u64::from(spare))
}

/// Whether the arms have a leaf.
fn has_leaf(arms: &[Arm]) -> bool
    ensures { result ≡ table.has_leaf arms.now }
{
    arms.iter().any(|arm| matches!(arm.kind, ArmKind::Leaf))
}

/// Whether the arms have a leaf beside the one at a place.
pub(crate) fn has_leaf_beside(arms: &[Arm], at: usize) -> bool
    requires { at < length arms.now }
    ensures { result ≡ table.has_leaf (remove arms.now at) }
{
    has_leaf(&arms[..at]) || has_leaf(&arms[at + 1..])
}

/// The least number of groups in a log beside the one at a place. None where there is no other.
pub(crate) fn least_count(logs: &[Log], at: usize) -> Option<u64>
    ensures least { IfSome result (IsLeastCount logs.now at (length logs.now)) }
    ensures none { IfNone result ((other : ℕ) → other ≢ at → ¬ (other < length logs.now)) }
{
    let mut least = None;
    for (other, log) in logs.iter().enumerate() {
        if other != at {
            let count = log.count();
            least = match least {
                Some(less) if less <= count => least,
                _ => Some(count),
            };
        }
    }
    least
}
