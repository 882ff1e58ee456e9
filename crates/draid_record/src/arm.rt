ghost use Rattle.std.specs.Prelude.{◌≡◌, ◌==◌, ◌≤◌, ◌+◌, ◌||◌, ◌&&◌, not, nat_lt, All, IfOk, length};
ghost use Rattle.draid_record.specs.Reader.{Reads, state_of};
ghost use Rattle.draid_record.specs.Record as spec;
ghost use Rattle.draid_record.specs.Record.{told_arm, told_slot, told_slots};

use crate::limits::Limits;
use crate::log::log;
use crate::reader::Reader;
use draid_dtl::Log;
use draid_names::{Arm, ArmKind, NoMemory};
use std::alloc::Global;

/// Whether an arm of this kind and number stands among some.
fn has_arm(list: &[(Arm, Log)], kind: ArmKind, number: u64) -> bool
    ensures { result ≡ spec.has_arm (told_slot list.now) kind number }
{
    for (arm, _) in list {
        if arm.kind == kind && arm.number == number {
            return true;
        }
    }
    false
}

/// Whether an arm of this kind and number stands in the slots before or among the arms before it.
fn stands(before: &[Vec<(Arm, Log)>], here: &[(Arm, Log)], kind: ArmKind, number: u64) -> bool
    ensures { result ≡ spec.stands (told_slots before.now) (told_slot here.now) kind number }
{
    for list in before {
        if has_arm(list, kind, number) {
            return true;
        }
    }
    has_arm(here, kind, number)
}

fn has_leaf(list: &[(Arm, Log)]) -> bool
    ensures { result ≡ spec.has_leaf (told_slot list.now) }
{
    for (arm, _) in list {
        if arm.kind == ArmKind::Leaf {
            return true;
        }
    }
    false
}

fn kind_of(code: u64) -> ArmKind
    ensures { result ≡ spec.kind_of code }
{
    match code {
        0 => ArmKind::Leaf,
        _ => ArmKind::Spare,
    }
}

/// How many leaves or spares there are.
fn limit(limits: &Limits, kind: ArmKind) -> u64
    ensures { result ≡ spec.limit_of limits.now kind }
{
    match kind {
        ArmKind::Leaf => limits.next_leaf,
        ArmKind::Spare => limits.spares,
    }
}

fn are_flags(kind: ArmKind, flags: u64) -> bool
    ensures { result ≡ spec.are_flags kind flags }
{
    match kind {
        ArmKind::Leaf => true,
        ArmKind::Spare => flags % 2 == 0,
    }
}

/// Whether an arm of this kind may stand here: the last one of a slot is a leaf where no leaf is before it.
fn keeps_leaf(here: &[(Arm, Log)], count: u64, code: u64) -> bool
    ensures { result ≡ (nat_lt (length (told_slot here.now) + 1) count || (spec.has_leaf (told_slot here.now) || (code == 0))) }
{
    (here.len() as u64) + 1 < count || has_leaf(here) || code == 0
}

/// Whether there is such a leaf or spare, and it stands nowhere before.
fn is_new(
    limits: &Limits,
    before: &[Vec<(Arm, Log)>],
    here: &[(Arm, Log)],
    kind: ArmKind,
    number: u64,
) -> bool
    ensures { result ≡ (nat_lt number (spec.limit_of limits.now kind)
        && not (spec.stands (told_slots before.now) (told_slot here.now) kind number)) }
{
    number < limit(limits, kind) && !stands(before, here, kind, number)
}

/// An arm without its log.
fn arm_head(
    reader: &mut Reader,
    limits: &Limits,
    before: &[Vec<(Arm, Log)>],
    count: u64,
    here: &[(Arm, Log)],
) -> Arm
    ensures { Reads (state_of reader.old) (state_of reader.new) result (spec.arm_head limits.now (told_slots before.now) count (told_slot here.now)) }
{
    let code = reader.number(1, 0, 1);
    reader.check(keeps_leaf(here, count, code), 1);
    let kind = kind_of(code);
    let number = reader.number(8, 0, u64::MAX);
    reader.check(is_new(limits, before, here, kind, number), 8);
    let flags = reader.number(1, 0, 3);
    reader.check(are_flags(kind, flags), 1);
    Arm {
        kind,
        number,
        offline: flags % 2 == 1,
        fresh: flags / 2 == 1,
    }
}

/// So many arms of a slot behind others.
fn arms(
    alloc: Global,
    reader: &mut Reader,
    limits: &Limits,
    before: &[Vec<(Arm, Log)>],
    count: u64,
) -> Result<Vec<(Arm, Log)>, NoMemory>
    ensures arms { IfOk result (λ arms. Reads (state_of reader.old) (state_of reader.new) (told_slot arms.items) (spec.slot_arms limits.now (told_slots before.now) count)) }
    ensures few { IfOk result (λ arms. length arms.items ≤ count) }
{
    let mut arms = Vec::new(alloc);
    for _ in 0..count {
        let arm = arm_head(reader, limits, before, count, &arms);
        let log = log(alloc, reader)?;
        if reader.has_failed() {
            return Ok(arms);
        }
        arms.push((arm, log))?;
    }
    Ok(arms)
}

/// A slot: the number of its arms, and each.
fn slot(
    alloc: Global,
    reader: &mut Reader,
    limits: &Limits,
    before: &[Vec<(Arm, Log)>],
) -> Result<Vec<(Arm, Log)>, NoMemory>
    ensures slot { IfOk result (λ arms. Reads (state_of reader.old) (state_of reader.new) (told_slot arms.items) (spec.slot limits.now (told_slots before.now))) }
    ensures few { IfOk result (λ arms. length arms.items ≤ 3) }
{
    let count = reader.number(1, 1, 3);
    arms(alloc, reader, limits, before, count)
}

/// All slots.
pub(crate) fn slots(
    alloc: Global,
    reader: &mut Reader,
    limits: &Limits,
) -> Result<Vec<Vec<(Arm, Log)>>, NoMemory>
    ensures slots { IfOk result (λ slots. Reads (state_of reader.old) (state_of reader.new) (told_slots slots.items) (spec.slots limits.now)) }
    ensures few { IfOk result (λ slots. All (λ list. length list ≤ 3) (told_slots slots.items)) }
{
    let mut slots = Vec::new(alloc);
    for _ in 0..limits.children {
        let slot = slot(alloc, reader, limits, &slots)?;
        if reader.has_failed() {
            return Ok(slots);
        }
        slots.push(slot)?;
    }
    Ok(slots)
}
