ghost use Rattle.std.specs.Prelude.{◌≡◌, ◌≤◌, ℕ, Some, false, length, slice_get, slice_index_or};
ghost use Rattle.draid_names.specs.declared.arm.Arm.{Arm};
ghost use Rattle.draid_disks.specs.Renewing.{is_renewed, moved_below};
ghost use Rattle.draid_disks.specs.Replanning.{MarksMoved};

use draid_names::{Arm, ArmKind};
use draid_slots::{Marks, Moved, Slots};

/// How many slots a metaslab may have.
const MOST_SLOTS: usize = 64;

/// Marks the arms that are spares which came to lie elsewhere.
pub(crate) fn marks_of(slots: &Slots, moved: &Moved) -> [Marks; MOST_SLOTS]
    ensures count { slots.now.geometry.spec.children ≤ length result }
    ensures marks { MarksMoved slots.now moved.now result }
{
    let spares = slots.geometry().spec.spares;
    let mut marks = [[false; 3]; MOST_SLOTS];
    for slot in 0..slots.children() {
        marks[slot as usize] = marks_in(slots.arms(slot), moved, spares);
    }
    marks
}

/// The same of a slot's arms.
fn marks_in(arms: &[Arm], moved: &Moved, spares: u32) -> Marks
    requires few { length arms.now ≤ 3 }
    ensures { (k : ℕ) (arm : Arm) → slice_get arms.now k ≡ Some arm → slice_index_or result k false ≡ is_renewed (moved_below moved.now spares) arm }
{
    let mut marks = [false; 3];
    for arm in 0..arms.len() {
        marks[arm] = is_moved(arms[arm], moved, spares);
    }
    marks
}

/// Whether an arm is such a spare.
fn is_moved(arm: Arm, moved: &Moved, spares: u32) -> bool
    ensures { result ≡ is_renewed (moved_below moved.now spares) arm }
{
    match arm.kind {
        ArmKind::Leaf => false,
        ArmKind::Spare => arm.number < u64::from(spares) && moved.has(arm.number as u32),
    }
}
