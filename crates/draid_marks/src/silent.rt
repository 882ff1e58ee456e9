ghost use Rattle.std.specs.Prelude.{◌≡◌, ◌≤◌, ◌==◌, ◌<◌, ◌&&◌, ℕ, false, length, slice_index_or};
ghost use Rattle.std.specs.List.{list_any};
ghost use Rattle.draid_machine.specs.Names.{any_below};
ghost use Rattle.draid_slots.specs.Table.{IsTable, IsThere, arm_at};
ghost use Rattle.draid_marks.specs.Silent.{AreSilent, has_column_in, is_silent_in, lies_silent};

use draid_chain::has_column;
use draid_names::{ArmAt, ArmKind};
use draid_slots::{Marks, Slots};

/// Marks the arms that lie on a leaf that is offline or is one of those on which a flush failed, and no other.
pub fn mark_silent(slots: &Slots, marks: &mut Vec<Marks>, failed: &[u64])
    requires count { length marks.old.items ≡ slots.now.geometry.spec.children }
    ensures count { length marks.new.items ≡ slots.now.geometry.spec.children }
    ensures silent { AreSilent slots.now failed.now marks.new.items }
{
    for slot in 0..slots.children() {
        marks[slot as usize] = silent_arms(slots, slot, failed);
    }
}

/// How many slots a metaslab may have.
const MOST_SLOTS: usize = 64;

/// The same marks on their own. They take no memory.
pub fn silent_marks(slots: &Slots, failed: &[u64]) -> [Marks; MOST_SLOTS]
    ensures count { slots.now.geometry.spec.children ≤ length result }
    ensures silent { AreSilent slots.now failed.now result }
{
    let mut marks = [[false; 3]; MOST_SLOTS];
    for slot in 0..slots.children() {
        marks[slot as usize] = silent_arms(slots, slot, failed);
    }
    marks
}

/// Which of a slot's arms lie so.
fn silent_arms(slots: &Slots, slot: u32, failed: &[u64]) -> Marks
    requires table { IsTable slots.now }
    requires slot { slot < slots.now.geometry.spec.children }
    ensures { (arm : ℕ) → slice_index_or result arm false
        ≡ lies_silent slots.now failed.now (record { slot = slot; arm = arm }) (arm_at slots.now (record { slot = slot; arm = arm })) }
{
    let mut marks = [false; 3];
    for arm in 0..slots.arms(slot).len() {
        let at = ArmAt {
            slot,
            arm: arm as u32,
        };
        marks[arm] = lies_silent(slots, at, failed);
    }
    marks
}

/// Whether an arm lies so.
fn lies_silent(slots: &Slots, at: ArmAt, failed: &[u64]) -> bool
    requires table { IsTable slots.now }
    requires slot { at.slot < slots.now.geometry.spec.children }
    requires there { IsThere slots.now at }
    ensures { result ≡ lies_silent slots.now failed.now at (arm_at slots.now at) }
{
    match slots.arms(at.slot)[at.arm as usize].kind {
        ArmKind::Leaf => is_silent(slots, at, 0, failed),
        ArmKind::Spare => keeps_silent(slots, at, failed),
    }
}

/// Whether a slice in which its slot has a column is kept for a spare arm on such a leaf.
fn keeps_silent(slots: &Slots, at: ArmAt, failed: &[u64]) -> bool
    requires slot { at.slot < slots.now.geometry.spec.children }
    requires there { IsThere slots.now at }
    ensures { result ≡ any_below slots.now.geometry.props.slices
        (λ slice. has_column_in slots.now at.slot slice && is_silent_in slots.now failed.now at slice) }
{
    for slice in 0..u64::from(slots.geometry().props.slices) {
        if has_column_in_slice(slots, at.slot, slice) && is_silent(slots, at, slice, failed) {
            return true;
        }
    }
    false
}

/// Whether a slot has a column in a slice.
pub(crate) fn has_column_in_slice(slots: &Slots, slot: u32, slice: u64) -> bool
    requires slot { slot < slots.now.geometry.spec.children }
    requires slice { slice < slots.now.geometry.props.slices }
    ensures { result ≡ has_column_in slots.now slot slice }
{
    let geometry = slots.geometry();
    let before = u64::from(slots.metaslab()) * u64::from(geometry.props.slices);
    has_column(geometry, slots.perms(), before + slice, slot)
}

/// Whether the leaf on which an arm keeps a slice is offline, or a flush failed on it.
fn is_silent(slots: &Slots, at: ArmAt, slice: u64, failed: &[u64]) -> bool
    requires there { IsThere slots.now at }
    requires slice { slice < slots.now.geometry.props.slices }
    ensures { result ≡ is_silent_in slots.now failed.now at slice }
{
    let geometry = slots.geometry();
    let leaf = slots.place(at, slice * geometry.slice_sectors()).leaf;
    !slots.answers(at, slice) || is_among(failed, leaf)
}

/// Whether a list has a leaf.
fn is_among(leaves: &[u64], leaf: u64) -> bool
    ensures { result ≡ list_any (λ other. other == leaf) leaves.now }
{
    leaves.iter().any(|other| *other == leaf)
}
