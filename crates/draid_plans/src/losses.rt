ghost use Rattle.std.specs.Prelude.{◌≡◌, ◌+◌, false, slice_index_or};
ghost use Rattle.draid_machine.specs.After.{capped};
ghost use Rattle.draid_plans.specs.Ends.{Loses, LosesAll, counted, is_lost};

use draid_names::{ArmAt, LAST_NUMBER, PassKind};
use draid_pass::Pass;
use draid_slots::Marks;

/// Whether the arm at a place is marked.
fn is_lost(marks: &[Marks], place: ArmAt) -> bool
    ensures { result ≡ is_lost marks.now place }
{
    match marks.get(place.slot as usize) {
        Some(slot) => is_marked(slot, place.arm as usize),
        None => false,
    }
}

/// Whether an arm of a slot is marked.
fn is_marked(marks: &[bool], arm: usize) -> bool
    ensures { result ≡ slice_index_or marks.now arm false }
{
    match marks.get(arm) {
        Some(marked) => *marked,
        None => false,
    }
}

/// The errors of a pass of a kind that has lost so many targets.
fn errors_after(kind: PassKind, errors: u64, lost: u64) -> u64
    ensures { result ≡ capped (errors + counted kind lost) }
{
    match kind {
        PassKind::Rebuild => errors.saturating_add(lost).min(LAST_NUMBER),
        PassKind::Heal => errors.min(LAST_NUMBER),
    }
}

/// A pass loses its marked targets, each of which counts an error in a rebuild.
pub fn lose_marked(pass: &mut Pass, marks: &[Marks])
    ensures lost { Loses marks.now pass.old pass.new }
    ensures state { LosesAll marks.now pass.old pass.new }
{
    let before = pass.targets.len() as u64;
    pass.targets.retain(|place| !is_lost(marks, *place));
    let lost = before - pass.targets.len() as u64;
    pass.errors = errors_after(pass.kind, pass.errors, lost);
}
