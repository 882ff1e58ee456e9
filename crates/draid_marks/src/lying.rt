ghost use Rattle.std.specs.Prelude.{◌≡◌, ◌<◌, ◌&&◌};
ghost use Rattle.draid_machine.specs.Names.{any_below};
ghost use Rattle.draid_slots.specs.Table.{IsTable, IsThere, arm_at};
ghost use Rattle.draid_marks.specs.Lying.{LiesAll, keeps_in, lies_there};
ghost use Rattle.draid_marks.specs.Silent.{has_column_in};

use crate::silent::has_column_in_slice;
use draid_names::{ArmAt, ArmKind};
use draid_slots::Slots;

/// Whether an arm lies on a leaf: it is the leaf, or a spare for which it keeps a slice in which the spare's slot has a
/// column.
pub fn lies_on(slots: &Slots, at: ArmAt, leaf: u64) -> bool
    requires table { IsTable slots.now }
    requires slot { at.slot < slots.now.geometry.spec.children }
    requires there { IsThere slots.now at }
    ensures is { result ≡ lies_there slots.now leaf at (arm_at slots.now at) }
    ensures lies { LiesAll slots.now at leaf result }
{
    let arm = slots.arms(at.slot)[at.arm as usize];
    match arm.kind {
        ArmKind::Leaf => arm.number == leaf,
        ArmKind::Spare => keeps(slots, at, leaf),
    }
}

/// Whether the leaf keeps such a slice for a spare.
fn keeps(slots: &Slots, at: ArmAt, leaf: u64) -> bool
    requires slot { at.slot < slots.now.geometry.spec.children }
    requires there { IsThere slots.now at }
    ensures { result ≡ any_below slots.now.geometry.props.slices
        (λ slice. has_column_in slots.now at.slot slice && keeps_in slots.now leaf at slice) }
{
    for slice in 0..u64::from(slots.geometry().props.slices) {
        if has_column_in_slice(slots, at.slot, slice) && keeps_slice(slots, at, slice, leaf) {
            return true;
        }
    }
    false
}

/// Whether it keeps a slice for the spare.
fn keeps_slice(slots: &Slots, at: ArmAt, slice: u64, leaf: u64) -> bool
    requires there { IsThere slots.now at }
    requires slice { slice < slots.now.geometry.props.slices }
    ensures { result ≡ keeps_in slots.now leaf at slice }
{
    let first = slice * slots.geometry().slice_sectors();
    slots.place(at, first).leaf == leaf
}
