ghost use Rattle.std.specs.Prelude.{◌≡◌, ◌+◌, ◌<◌, ◌^◌, true, false, All, length, slice_index_or};
ghost use Rattle.draid_machine.specs.After.{capped};
ghost use Rattle.draid_record.specs.Record.{told_pass};
ghost use Rattle.draid_stable.specs.Sealing.{HaveRoom, LosesTargets, MarksArm, MarksSlot, MarksSlots, by_kind, is_lost, lose_marked};

use draid_dtl::Log;
use draid_names::{Arm, ArmAt, LAST_NUMBER, PassKind};
use draid_pass::Pass;
use draid_slots::Marks;

/// Whether the arm at a place is marked.
fn is_lost(marks: &[Marks], place: ArmAt) -> bool
    ensures { result ≡ is_lost marks.now place }
{
    match marks.get(place.slot as usize) {
        Some(slot) => is_marked(slot, place.arm as usize),
        None => false,
    }
}

/// Whether an arm of a slot is marked.
fn is_marked(marks: &[bool], arm: usize) -> bool
    ensures { result ≡ slice_index_or marks.now arm false }
{
    match marks.get(arm) {
        Some(marked) => *marked,
        None => false,
    }
}

/// The group gets into the log of an arm.
fn mark_arm(pair: &mut (Arm, Log), group: u64)
    requires range { group < 2 ^ 48 }
    requires room { 0 < pair.old.1.room }
    ensures { MarksArm pair.old pair.new true group }
{
    let Ok(()) = pair.1.dirty(group) else {
        unreachable!()
    };
}

/// The group gets into the logs of a slot's marked arms.
fn mark_slot(list: &mut Vec<(Arm, Log)>, marks: &[bool], group: u64)
    requires range { group < 2 ^ 48 }
    requires room { All (λ pair. 0 < pair.1.room) list.old.items }
    ensures { MarksSlot list.old.items list.new.items marks.now group }
{
    for arm in 0..list.len() {
        if is_marked(marks, arm) {
            mark_arm(&mut list[arm], group);
        }
    }
}

/// The group gets into the logs of the marked arms.
pub(crate) fn mark_slots(lists: &mut Vec<Vec<(Arm, Log)>>, marks: &[Marks], group: u64)
    requires range { group < 2 ^ 48 }
    requires count { length marks.now ≡ length lists.old.items }
    requires room { HaveRoom lists.old.items }
    ensures { MarksSlots lists.old.items lists.new.items marks.now group }
{
    for slot in 0..lists.len() {
        mark_slot(&mut lists[slot], &marks[slot], group);
    }
}

/// The errors of a pass of a kind that has lost so many targets.
fn errors_after(kind: PassKind, errors: u64, lost: u64) -> u64
    ensures { result ≡ capped (errors + by_kind kind lost) }
{
    match kind {
        PassKind::Rebuild => errors.saturating_add(lost).min(LAST_NUMBER),
        PassKind::Heal => errors.min(LAST_NUMBER),
    }
}

/// A pass loses its marked targets, each of which counts an error in a rebuild.
fn lose(pass: &mut Pass, marks: &[Marks])
    ensures told { told_pass pass.new ≡ lose_marked marks.now (told_pass pass.old) }
    ensures number { pass.new.number ≡ pass.old.number }
{
    let before = pass.targets.len() as u64;
    pass.targets.retain(|place| !is_lost(marks, *place));
    let lost = before - pass.targets.len() as u64;
    pass.errors = errors_after(pass.kind, pass.errors, lost);
}

/// The same of the pass that there may be.
pub fn lose_targets(pass: &mut Option<Pass>, marks: &[Marks])
    ensures { LosesTargets marks.now pass.old pass.new }
{
    if let Some(mut lost) = pass.take() {
        lose(&mut lost, marks);
        *pass = Some(lost);
    }
}
