ghost use Rattle.std.specs.Prelude.{◌≡◌, ◌==◌, ◌<◌, ◌^◌, ◌&&◌, true, false, length, slice_index_or};
ghost use Rattle.draid_slots.specs.Marks.{is_marked};
ghost use Rattle.draid_slots.specs.Table.{IsThere, arms_of, is_at, is_logged, room_at};
ghost use Rattle.draid_marks.specs.Missed.{HaveRoom, MarksTable, Misses, is_marked_below};

use draid_names::ArmAt;
use draid_slots::{Marks, Slots};

/// Where something was written, the group gets into the logs of the marked arms.
pub fn miss_marked(slots: &mut Slots, marks: &[Marks], wrote: bool, group: u64)
    requires range { group < 2 ^ 48 }
    requires count { length marks.now ≡ slots.old.geometry.spec.children }
    requires room { HaveRoom slots.old (λ at. is_marked marks.now at.slot at.arm) group }
    ensures { MarksTable slots.old slots.new marks.now wrote group }
{
    if wrote {
        miss_all(slots, marks, group);
    }
}

/// The group gets into the logs of the marked arms.
fn miss_all(slots: &mut Slots, marks: &[Marks], group: u64)
    requires range { group < 2 ^ 48 }
    requires count { length marks.now ≡ slots.old.geometry.spec.children }
    requires room { HaveRoom slots.old (λ at. is_marked marks.now at.slot at.arm) group }
    ensures { MarksTable slots.old slots.new marks.now true group }
{
    for slot in 0..slots.children() {
        miss_in_slot(slots, slot, &marks[slot as usize], group);
    }
}

/// The group gets into the logs of a slot's marked arms.
fn miss_in_slot(slots: &mut Slots, slot: u32, marks: &Marks, group: u64)
    requires range { group < 2 ^ 48 }
    requires slot { slot < slots.old.geometry.spec.children }
    requires room { HaveRoom slots.old (λ at. (at.slot == slot) && slice_index_or marks.now at.arm false) group }
    ensures { Misses slots.old slots.new (is_marked_below marks.now slot (length (arms_of slots.old slot))) group }
{
    for arm in 0..slots.arms(slot).len() {
        if marks[arm] {
            let at = ArmAt {
                slot,
                arm: arm as u32,
            };
            miss(slots, at, group);
        }
    }
}

/// The group gets into the log of an arm.
fn miss(slots: &mut Slots, at: ArmAt, group: u64)
    requires range { group < 2 ^ 48 }
    requires there { IsThere slots.old at }
    requires room { is_logged slots.old at group ≡ false → 0 < room_at slots.old at }
    ensures { Misses slots.old slots.new (is_at at) group }
{
    if !slots.log(at).contains(group) {
        slots.dirty(at, group);
    }
}
