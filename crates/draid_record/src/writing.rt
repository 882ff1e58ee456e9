ghost use Rattle.std.specs.Prelude.{◌≡◌, ◌+◌, ◌-◌, ◌<◌, ◌≤◌, ◌^◌, ◌++◌, ℕ, All, List, Some, IfOk};
ghost use Rattle.std.specs.List.{flat_map};
ghost use Rattle.std.specs.Option.{option_map};
ghost use Rattle.draid_names.specs.declared.pointer.Pointer.{Pointer};
ghost use Rattle.draid_record.specs.declared.limits.Limits.{Limits};
ghost use Rattle.draid_record.specs.Record as spec;
ghost use Rattle.draid_record.specs.Record.{RecordTold, told_arm, told_pass, told_record, told_slot, told_slots};
ghost use Rattle.draid_record.specs.Writer.{Writes, text_of};
ghost use Rattle.draid_record.specs.Written as written;

use crate::record::{MAGIC, Record};
use crate::writer::Writer;
use draid_dtl::Log;
use draid_names::{Arm, ArmAt, ArmKind, NUMBERS, NoMemory, PassKind, Pointer};
use draid_pass::Pass;
use draid_ranges::Run;
use std::alloc::Global;

fn bit(flag: bool) -> u64
    ensures { result ≡ written.bit flag }
{
    match flag {
        true => 1,
        false => 0,
    }
}

fn put_run(out: &mut Writer, run: Run)
    requires { (0 < run.len) × (run.first + run.len ≤ NUMBERS) }
    ensures { Writes (text_of out.old) (text_of out.new) (written.run_bytes run) }
{
    out.put(8, run.first);
    out.put(8, run.first + run.len - 1);
}

fn put_log(out: &mut Writer, log: &Log)
    ensures { Writes (text_of out.old) (text_of out.new) (written.log_bytes log.now.runs) }
{
    let runs = log.runs();
    out.put(4, runs.len() as u64);
    for run in runs {
        put_run(out, *run);
    }
}

fn code_of(kind: ArmKind) -> u64
    ensures { result ≡ written.code_of kind }
{
    match kind {
        ArmKind::Leaf => 0,
        ArmKind::Spare => 1,
    }
}

fn put_arm(out: &mut Writer, arm: Arm, log: &Log)
    ensures { Writes (text_of out.old) (text_of out.new) (written.arm_bytes (arm, log.now.runs)) }
{
    out.put(1, code_of(arm.kind));
    out.put(8, arm.number);
    out.put(1, bit(arm.offline) + 2 * bit(arm.fresh));
    put_log(out, log);
}

fn put_slot(out: &mut Writer, slot: &[(Arm, Log)])
    ensures { Writes (text_of out.old) (text_of out.new) (written.slot_bytes (told_slot slot.now)) }
{
    out.put(1, slot.len() as u64);
    for (arm, log) in slot {
        put_arm(out, *arm, log);
    }
}

fn put_slots(out: &mut Writer, slots: &[Vec<(Arm, Log)>])
    ensures { Writes (text_of out.old) (text_of out.new) (flat_map written.slot_bytes (told_slots slots.now)) }
{
    for slot in slots {
        put_slot(out, slot);
    }
}

fn put_targets(out: &mut Writer, targets: &[ArmAt])
    ensures { Writes (text_of out.old) (text_of out.new) (flat_map written.target_bytes targets.now) }
{
    for target in targets {
        out.put(2, u64::from(target.slot));
        out.put(1, u64::from(target.arm));
    }
}

fn pass_code(kind: PassKind) -> u64
    ensures { result ≡ written.pass_code kind }
{
    match kind {
        PassKind::Rebuild => 1,
        PassKind::Heal => 2,
    }
}

fn put_some_pass(out: &mut Writer, pass: &Pass)
    ensures { Writes (text_of out.old) (text_of out.new) (written.pass_bytes (Some (told_pass pass.now))) }
{
    out.put(1, pass_code(pass.kind));
    out.put(1, bit(pass.running));
    out.put(8, pass.max);
    out.put(8, pass.at);
    out.put(8, pass.errors);
    out.put(2, pass.targets.len() as u64);
    put_targets(out, &pass.targets);
}

fn put_pass(out: &mut Writer, pass: &Option<Pass>)
    ensures { Writes (text_of out.old) (text_of out.new) (written.pass_bytes (option_map told_pass pass.now)) }
{
    match pass {
        Some(pass) => put_some_pass(out, pass),
        None => out.put(1, 0),
    }
}

/// The maximal runs of the blocks' stripes.
fn spaces_of(alloc: Global, blocks: &[Pointer]) -> Result<Vec<Run>, NoMemory>
    requires { All (λ (b : Pointer). b.first + b.stripes ≤ 2 ^ 49) blocks.now }
    ensures { IfOk result (λ runs. runs.items ≡ spec.spaces_of blocks.now) }
{
    let mut runs = Vec::new(alloc);
    if blocks.is_empty() {
        return Ok(runs);
    }
    let mut first = blocks[0].first;
    let mut upto = first + u64::from(blocks[0].stripes);
    for next in 1..blocks.len() {
        let block = blocks[next];
        if block.first != upto {
            runs.push(Run {
                first,
                len: upto.saturating_sub(first),
            })?;
            first = block.first;
        }
        upto = block.first + u64::from(block.stripes);
    }
    runs.push(Run {
        first,
        len: upto.saturating_sub(first),
    })?;
    Ok(runs)
}

fn put_spaces(out: &mut Writer, runs: &[Run])
    ensures { Writes (text_of out.old) (text_of out.new) (written.spaces_bytes runs.now) }
{
    out.put(4, runs.len() as u64);
    for run in runs {
        out.put(8, run.first);
        out.put(8, run.len);
    }
}

fn put_block(out: &mut Writer, block: &Pointer)
    ensures { Writes (text_of out.old) (text_of out.new) (written.block_bytes block.now) }
{
    out.put(8, block.object);
    out.put(8, block.seq);
    out.put(8, block.first);
    out.put(4, u64::from(block.stripes));
    out.put(4, u64::from(block.len));
    out.put(8, block.birth);
    out.add(&block.digest);
}

fn put_blocks(out: &mut Writer, blocks: &[Pointer])
    ensures { Writes (text_of out.old) (text_of out.new) (written.blocks_bytes blocks.now) }
{
    out.put(4, blocks.len() as u64);
    for block in blocks {
        put_block(out, block);
    }
}

/// The fields behind the length.
fn body(alloc: Global, value: &Record) -> Result<Vec<u8>, NoMemory>
    requires { All (λ (b : Pointer). b.first + b.stripes ≤ 2 ^ 49) value.now.blocks.items }
    ensures { IfOk result (λ bytes. bytes.items ≡ written.body_bytes (told_record value.now)) }
{
    let runs = spaces_of(alloc, &value.blocks)?;
    let mut out = Writer::new(alloc);
    out.put(2, u64::from(value.metaslab));
    out.put(8, value.group);
    out.put(2, value.slots.len() as u64);
    put_slots(&mut out, &value.slots);
    out.put(8, value.last_pass);
    put_pass(&mut out, &value.pass);
    put_spaces(&mut out, &runs);
    put_blocks(&mut out, &value.blocks);
    out.done()
}

/// The record's bytes, for the front of an area. For each layout, group and next leaf for which the value is
/// in its ranges they are read again as the same value, whatever bytes follow.
pub fn write_record(alloc: Global, value: &Record) -> Result<Vec<u8>, NoMemory>
    requires { All (λ (b : Pointer). b.first + b.stripes ≤ 2 ^ 49) value.now.blocks.items }
    ensures whole { IfOk result (λ bytes. written.IsWhole bytes.items (told_record value.now)) }
    ensures spelled { IfOk result (λ bytes. (limits : Limits) (more : List ℕ)
        → written.IsRecord limits (told_record value.now) → spec.Spelled limits (bytes.items ++ more) (told_record value.now)) }
{
    whole(alloc, value)
}

/// The front and the fields behind it.
fn whole(alloc: Global, value: &Record) -> Result<Vec<u8>, NoMemory>
    requires { All (λ (b : Pointer). b.first + b.stripes ≤ 2 ^ 49) value.now.blocks.items }
    ensures { IfOk result (λ bytes. written.IsWhole bytes.items (told_record value.now)) }
{
    let fields = body(alloc, value)?;
    if fields.len() + 10 > u32::MAX as usize {
        return Err(NoMemory);
    }
    let mut out = Writer::with_room(alloc, fields.len() + 10)?;
    out.put(4, MAGIC);
    out.put(2, u64::from(value.version));
    out.put(4, (fields.len() + 10) as u64);
    out.add(&fields);
    out.done()
}
