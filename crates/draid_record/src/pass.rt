ghost use Rattle.std.specs.Prelude.{◌≡◌, ◌≤◌, ◌<◌, [], All, IfOk, IfSome, length, slice_index_or};
ghost use Rattle.std.specs.Option.{option_map};
ghost use Rattle.draid_names.specs.Arms as arms;
ghost use Rattle.draid_record.specs.Reader.{Reads, state_of};
ghost use Rattle.draid_record.specs.Record as spec;
ghost use Rattle.draid_record.specs.Record.{told_pass, told_slots};

use crate::limits::Limits;
use crate::reader::Reader;
use draid_dtl::Log;
use draid_names::{Arm, ArmAt, LAST_NUMBER, NoMemory, PassKind};
use draid_pass::Pass;
use std::alloc::Global;

/// How many arms there are.
fn arm_count(all: &[Vec<(Arm, Log)>]) -> u64
    requires { All (λ list. length list ≤ 3) (told_slots all.now) }
    ensures { result ≡ spec.arm_count (told_slots all.now) }
{
    let mut count = 0;
    for list in all {
        count += list.len() as u64;
    }
    count
}

/// How many arms a slot has, 0 where it isn't there.
fn arms_at(all: &[Vec<(Arm, Log)>], slot: usize) -> u64
    ensures { result ≡ length (slice_index_or (told_slots all.now) slot []) }
{
    match all.get(slot) {
        Some(list) => list.len() as u64,
        None => 0,
    }
}

fn least_slot(before: Option<ArmAt>) -> u64
    ensures { result ≡ arms.least_slot before }
{
    match before {
        Some(before) => u64::from(before.slot),
        None => 0,
    }
}

fn least_arm(before: Option<ArmAt>, slot: u64) -> u64
    ensures { result ≡ arms.least_arm before slot }
{
    match before {
        Some(before) if slot == u64::from(before.slot) => u64::from(before.arm) + 1,
        _ => 0,
    }
}

/// A target behind the one before.
fn target(reader: &mut Reader, all: &[Vec<(Arm, Log)>], before: Option<ArmAt>) -> ArmAt
    ensures { Reads (state_of reader.old) (state_of reader.new) result (spec.target (told_slots all.now) before) }
{
    let most = (all.len() as u64).saturating_sub(1);
    let slot = reader.number(2, least_slot(before), most);
    let most = arms_at(all, slot as usize).saturating_sub(1);
    let arm = reader.number(1, least_arm(before, slot), most);
    ArmAt {
        slot: slot as u32,
        arm: arm as u32,
    }
}

/// So many targets.
fn targets_of(
    alloc: Global,
    reader: &mut Reader,
    all: &[Vec<(Arm, Log)>],
    count: u64,
) -> Result<Vec<ArmAt>, NoMemory>
    ensures { IfOk result (λ targets. Reads (state_of reader.old) (state_of reader.new) targets.items (spec.targets_of (told_slots all.now) count)) }
{
    let mut targets = Vec::new(alloc);
    let mut before = None;
    for _ in 0..count {
        let found = target(reader, all, before);
        if reader.has_failed() {
            return Ok(targets);
        }
        targets.push(found)?;
        before = Some(found);
    }
    Ok(targets)
}

/// The number of targets, and each.
fn targets(
    alloc: Global,
    reader: &mut Reader,
    all: &[Vec<(Arm, Log)>],
) -> Result<Vec<ArmAt>, NoMemory>
    requires { All (λ list. length list ≤ 3) (told_slots all.now) }
    ensures { IfOk result (λ targets. Reads (state_of reader.old) (state_of reader.new) targets.items (spec.targets (told_slots all.now))) }
{
    let count = reader.number(2, 0, arm_count(all));
    targets_of(alloc, reader, all, count)
}

/// A pass of this kind.
fn pass_of(
    alloc: Global,
    reader: &mut Reader,
    limits: &Limits,
    all: &[Vec<(Arm, Log)>],
    number: u64,
    kind: PassKind,
    least: u64,
) -> Result<Option<Pass>, NoMemory>
    requires { All (λ list. length list ≤ 3) (told_slots all.now) }
    ensures pass { IfOk result (λ pass. Reads (state_of reader.old) (state_of reader.new) (option_map told_pass pass) (spec.pass_of limits.now (told_slots all.now) kind least)) }
    ensures number { IfOk result (λ pass. IfSome pass (λ pass. pass.number ≡ number)) }
{
    let running = reader.number(1, least, 1) == 1;
    let max = reader.number(8, 1, LAST_NUMBER);
    let at = reader.number(8, 0, limits.stripes);
    let errors = reader.number(8, 0, LAST_NUMBER);
    let targets = targets(alloc, reader, all)?;
    Ok(Some(Pass {
        number,
        kind,
        targets,
        max,
        at,
        errors,
        running,
    }))
}

/// The kind of the pass, and the pass, if there is one.
pub(crate) fn pass(
    alloc: Global,
    reader: &mut Reader,
    limits: &Limits,
    all: &[Vec<(Arm, Log)>],
    number: u64,
) -> Result<Option<Pass>, NoMemory>
    requires { All (λ list. length list ≤ 3) (told_slots all.now) }
    ensures pass { IfOk result (λ pass. Reads (state_of reader.old) (state_of reader.new) (option_map told_pass pass) (spec.pass limits.now (told_slots all.now))) }
    ensures number { IfOk result (λ pass. IfSome pass (λ pass. pass.number ≡ number)) }
{
    match reader.number(1, 0, 2) {
        0 => Ok(None),
        1 => pass_of(alloc, reader, limits, all, number, PassKind::Rebuild, 0),
        _ => pass_of(alloc, reader, limits, all, number, PassKind::Heal, 1),
    }
}
