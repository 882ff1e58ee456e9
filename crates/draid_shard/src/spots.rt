ghost use Rattle.std.specs.Prelude.{◌≡◌, ◌*◌, ◌≤◌, ◌<◌, ◌+◌, ◌++◌, ◌∷◌, ◌↔◌, [], not, IsTrue, Some, length, true, vec_capacity, vec_len};
ghost use Rattle.draid_names.specs.declared.arm.Arm.{Arm};
ghost use Rattle.draid_shard.specs.Loans.{most_arms};
ghost use Rattle.draid_shard.specs.Part.{IsRun};
ghost use Rattle.draid_shard.specs.Rows.{answers_on, arm_no};
ghost use Rattle.draid_shard.specs.States.{part_of};
ghost use Rattle.draid_slots.specs.Reading.{holder};
ghost use Rattle.draid_slots.specs.States as states;
ghost use Rattle.draid_slots.specs.Table.{IsThere, arm_at, arms_of, is_logged, is_spare_kind};
ghost use Rattle.draid_shard.specs.Spots.{AnswersClean, CleanAmong, CleanAnswer, IsLaid, LiesIn, SpotsOf, spot_if, spots_below, spots_in};

use crate::loan::Spot;
use crate::places::ColumnRows;
use crate::shard::Shard;
use draid_area::Area;
use draid_machine::ArmName;
use draid_names::{Arm, ArmAt, ArmKind, Pointer};
use draid_rack::Rack;
use draid_slots::Slots;

/// Lists the arms of a pointer's block that answer: column by column, those of one in the order of its slot. Whether each arm
/// that is clean for the block is among them.
pub fn list_spots<R: Rack, A: Area>(
    shard: &Shard<R, A>,
    pointer: &Pointer,
    spots: &mut Vec<Spot>,
) -> bool
    requires laid { IsLaid R.Rack shard.now }
    requires run { IsRun shard.now.geometry pointer.now.first pointer.now.stripes }
    requires room { most_arms * shard.now.geometry.g ≤ vec_capacity spots.old }
    ensures spots { SpotsOf (part_of shard.now) shard.now.slots pointer.now spots.new.items }
    ensures listed { spots.new.items ≡ spots_below (part_of shard.now) shard.now.slots pointer.now shard.now.geometry.g }
    ensures few { length spots.new.items ≤ most_arms * shard.now.geometry.g }
    ensures answered { IsTrue result ↔ CleanAnswer (part_of shard.now) shard.now.slots pointer.now }
    ensures capacity { vec_capacity spots.new ≡ vec_capacity spots.old }
{
    spots.clear();
    let mut answered = true;
    for column in 0..shard.geometry.g {
        let rows = shard.rows_of(pointer, column);
        answered = list_column(&shard.slots, rows, column, spots) && answered;
    }
    answered
}

/// Lists those of a column. Whether each that is clean for the block answers.
fn list_column(slots: &Slots, rows: ColumnRows, column: u32, spots: &mut Vec<Spot>) -> bool
    requires lies { LiesIn slots.now rows }
    requires room { vec_len spots.old + most_arms ≤ vec_capacity spots.old }
    ensures listed { spots.new.items ≡ spots.old.items ++ spots_in slots.now rows column }
    ensures answered { IsTrue result ↔ CleanAmong slots.now rows (length (arms_of slots.now rows.slot)) }
    ensures few { vec_len spots.new ≤ vec_len spots.old + most_arms }
    ensures capacity { vec_capacity spots.new ≡ vec_capacity spots.old }
{
    let mut answered = true;
    for arm in 0..slots.arms(rows.slot).len() as u32 {
        answered = list_arm(slots, rows, column, arm, spots) && answered;
    }
    answered
}

/// Lists one, if it answers. Whether it does, or isn't clean.
fn list_arm(slots: &Slots, rows: ColumnRows, column: u32, arm: u32, spots: &mut Vec<Spot>) -> bool
    requires lies { LiesIn slots.now rows }
    requires there { IsThere slots.now (arm_no rows arm) }
    requires room { vec_len spots.old < vec_capacity spots.old }
    ensures listed { (a : Arm) → arm_at slots.now (arm_no rows arm) ≡ Some a
        → spots.new.items ≡ spots.old.items ++ spot_if rows column (answers_on slots.now rows arm) (not (is_logged slots.now (arm_no rows arm) rows.birth)) a (holder slots.now (arm_no rows arm) rows.slice) }
    ensures answered { IsTrue result ↔ AnswersClean slots.now rows arm }
    ensures few { vec_len spots.new ≤ vec_len spots.old + 1 }
    ensures capacity { vec_capacity spots.new ≡ vec_capacity spots.old }
{
    let at = ArmAt {
        slot: rows.slot,
        arm,
    };
    let clean = !slots.log(at).contains(rows.birth);
    if !slots.answers(at, rows.slice) {
        return !clean;
    }
    spots.push_reserved(spot_of(slots, rows, column, at, clean));
    true
}

/// An arm of a column's slot.
fn spot_of(slots: &Slots, rows: ColumnRows, column: u32, at: ArmAt, clean: bool) -> Spot
    requires lies { LiesIn slots.now rows }
    requires there { IsThere slots.now at }
    requires slot { at.slot ≡ rows.slot }
    ensures { (a : Arm) → arm_at slots.now at ≡ Some a → spot_if rows column true clean a (holder slots.now at rows.slice) ≡ result ∷ [] }
{
    let spares = slots.geometry().spec.spares;
    let found = slots.arms(at.slot)[at.arm as usize];
    Spot {
        column,
        arm: name_of(found, spares),
        leaf: slots.place(at, rows.first).leaf,
        first: rows.first,
        clean,
    }
}

/// What an arm is. A spare's number is below that of the spares.
fn name_of(arm: Arm, spares: u32) -> ArmName
    requires low { is_spare_kind arm.kind ≡ true → arm.number < spares }
    ensures { result ≡ states.name_of arm }
{
    match arm.kind {
        ArmKind::Leaf => ArmName::Leaf { leaf: arm.number },
        ArmKind::Spare => ArmName::Spare {
            spare: arm.number as u32,
        },
    }
}
