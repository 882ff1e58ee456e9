//! The arms of a stripe's slots that miss it as it lands.
ghost use Rattle.std.specs.Prelude.{◌≡◌, ◌==◌, ◌<◌, [], ℕ, false, true, length, slice_index_or};
ghost use Rattle.std.specs.List.{list_any};
ghost use Rattle.draid_shard.specs.Part.{IsRun};
ghost use Rattle.draid_shard.specs.Rows.{arm_no};
ghost use Rattle.draid_shard.specs.States.{part_of};
ghost use Rattle.draid_slots.specs.Table.{IsThere, arms_of};
ghost use Rattle.draid_mend.specs.Lands.{IsLaid};
ghost use Rattle.draid_mend.specs.Losing.{AreMissed, IsRowIn, LosesMissed, is_missed_on};
ghost use Rattle.draid_mend.specs.Stripes.{AnswerBelow};

use draid_area::Area;
use draid_names::{ArmAt, Pointer};
use draid_pass::Pass;
use draid_plans::lose_marked;
use draid_rack::Rack;
use draid_shard::{ColumnRows, Shard};
use draid_slots::{Marks, Slots};

/// How many slots a metaslab may have.
const MOST_SLOTS: usize = 64;

/// A pass loses the targets that miss a stripe: those that don't answer there, or keep it on a leaf on which a call failed. It
/// takes no memory. Where all answered and no call failed there are none, and no column is looked at again.
pub(crate) fn lose_missed<R: Rack, A: Area>(
    shard: &Shard<R, A>,
    pass: &mut Pass,
    pointer: &Pointer,
    failed: &[u64],
    answered: bool,
)
    requires laid { IsLaid R.Rack shard.now }
    requires run { IsRun shard.now.geometry pointer.now.first pointer.now.stripes }
    requires answered { answered ≡ true → AnswerBelow (part_of shard.now) shard.now.slots pointer.now pass.old.targets.items shard.now.geometry.g }
    ensures { LosesMissed (part_of shard.now) shard.now.slots pointer.now failed.now shard.now.geometry.g pass.old pass.new }
{
    if is_whole(answered, failed) {
        lose_marked(pass, &[]);
        return;
    }
    let marks = missed_marks(shard, pointer, failed);
    lose_marked(pass, &marks);
}

/// Whether all targets answered and no call failed.
fn is_whole(answered: bool, failed: &[u64]) -> bool
    ensures answered { result ≡ true → answered ≡ true }
    ensures none { result ≡ true → failed.now ≡ [] }
{
    answered && failed.is_empty()
}

/// Marks the arms of the slots of a stripe's columns that don't answer there, or keep it on a leaf on which a call failed. It
/// takes no memory.
fn missed_marks<R: Rack, A: Area>(
    shard: &Shard<R, A>,
    pointer: &Pointer,
    failed: &[u64],
) -> [Marks; MOST_SLOTS]
    requires laid { IsLaid R.Rack shard.now }
    requires run { IsRun shard.now.geometry pointer.now.first pointer.now.stripes }
    ensures { AreMissed (part_of shard.now) shard.now.slots pointer.now failed.now shard.now.geometry.g result }
{
    let mut marks = [[false; 3]; MOST_SLOTS];
    for column in 0..shard.geometry.g {
        let rows = shard.rows_of(pointer, column);
        marks[rows.slot as usize] = missed_arms(&shard.slots, rows, failed);
    }
    marks
}

/// Which arms of a column's slot do so.
fn missed_arms(slots: &Slots, rows: ColumnRows, failed: &[u64]) -> Marks
    requires row { IsRowIn slots.now rows }
    ensures { (arm : ℕ) → arm < length (arms_of slots.now rows.slot) → slice_index_or result arm false ≡ is_missed_on slots.now rows failed.now arm }
{
    let mut marks = [false; 3];
    for arm in 0..slots.arms(rows.slot).len() {
        marks[arm] = misses(slots, rows, arm as u32, failed);
    }
    marks
}

/// Whether one does.
fn misses(slots: &Slots, rows: ColumnRows, arm: u32, failed: &[u64]) -> bool
    requires row { IsRowIn slots.now rows }
    requires there { IsThere slots.now (arm_no rows arm) }
    ensures { result ≡ is_missed_on slots.now rows failed.now arm }
{
    let at = ArmAt {
        slot: rows.slot,
        arm,
    };
    if !slots.answers(at, rows.slice) {
        return true;
    }
    is_among(failed, slots.place(at, rows.first).leaf)
}

/// Whether a list has a leaf.
fn is_among(leaves: &[u64], leaf: u64) -> bool
    ensures { result ≡ list_any (λ other. other == leaf) leaves.now }
{
    leaves.iter().any(|other| *other == leaf)
}
