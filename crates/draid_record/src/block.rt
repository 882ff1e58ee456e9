ghost use Rattle.std.specs.Prelude.{◌≡◌, ◌+◌, ◌≤◌, ◌<◌, ◌^◌, ◌-◌, ◌∷◌, [], All, IfOk, length};
ghost use Rattle.draid_names.specs.Numbers as numbers;
ghost use Rattle.draid_names.specs.declared.pointer.Pointer.{Pointer};
ghost use Rattle.draid_record.specs.Reader.{Reads, state_of};
ghost use Rattle.draid_record.specs.Record as spec;
ghost use Rattle.draid_record.specs.Record.{AreLimits};

use crate::limits::Limits;
use crate::reader::Reader;
use draid_names::{LAST_NUMBER, LONGEST_BLOCK, NoMemory, OBJECTS, Pointer, most_held};
use draid_ranges::Run;
use std::alloc::Global;

fn space_run(reader: &mut Reader) -> Run
    ensures { Reads (state_of reader.old) (state_of reader.new) result (spec.space_run 0) }
{
    let first = reader.number(8, 0, u64::MAX);
    let len = reader.number(8, 0, u64::MAX);
    Run { first, len }
}

/// So many runs of stripes.
fn space_runs(alloc: Global, reader: &mut Reader, count: u64) -> Result<Vec<Run>, NoMemory>
    ensures runs { IfOk result (λ runs. Reads (state_of reader.old) (state_of reader.new) runs.items (spec.space_runs count)) }
    ensures few { IfOk result (λ runs. length runs.items ≤ count) }
{
    let mut runs = Vec::new(alloc);
    for _ in 0..count {
        let run = space_run(reader);
        if reader.has_failed() {
            return Ok(runs);
        }
        runs.push(run)?;
    }
    Ok(runs)
}

/// The number of runs of stripes, and each.
pub(crate) fn spaces(alloc: Global, reader: &mut Reader) -> Result<Vec<Run>, NoMemory>
    ensures runs { IfOk result (λ runs. Reads (state_of reader.old) (state_of reader.new) runs.items spec.spaces) }
    ensures few { IfOk result (λ runs. length runs.items < 2 ^ 32) }
{
    let count = reader.number(4, 0, u64::from(u32::MAX));
    space_runs(alloc, reader, count)
}

/// The stripes of a block of so many bytes.
fn stripes_of(limits: &Limits, len: u64) -> u64
    requires limits { AreLimits limits.now }
    requires len { len ≤ LONGEST_BLOCK }
    ensures { result ≡ spec.stripes_of limits.now len }
{
    let sectors = (len + limits.sector - 1) / limits.sector;
    (sectors + limits.ndata - 1) / limits.ndata
}

/// A block at or behind a stripe.
fn block(reader: &mut Reader, limits: &Limits, low: u64) -> Pointer
    requires { AreLimits limits.now }
    ensures block { Reads (state_of reader.old) (state_of reader.new) result (spec.block limits.now low) }
    ensures range { result.first + result.stripes ≤ 2 ^ 49 }
{
    let object = reader.number(8, 0, OBJECTS - 1);
    let seq = reader.number(8, 1, LAST_NUMBER);
    let first = reader.number(8, low, limits.stripes.saturating_sub(1));
    let stripes = reader.number(4, 1, limits.height - first % limits.height);
    let len = reader.number(4, 1, LONGEST_BLOCK);
    reader.check(stripes == stripes_of(limits, len), 8);
    let birth = reader.number(8, 1, limits.group);
    Pointer {
        object,
        seq,
        metaslab: limits.metaslab,
        first,
        stripes: stripes as u32,
        len: len as u32,
        birth,
        digest: reader.digest(),
    }
}

/// So many blocks.
fn blocks_of(
    alloc: Global,
    reader: &mut Reader,
    limits: &Limits,
    count: u64,
) -> Result<Vec<Pointer>, NoMemory>
    requires { AreLimits limits.now }
    ensures blocks { IfOk result (λ blocks. Reads (state_of reader.old) (state_of reader.new) blocks.items (spec.blocks_of limits.now count)) }
    ensures range { IfOk result (λ blocks. All (λ (b : Pointer). b.first + b.stripes ≤ 2 ^ 49) blocks.items) }
    ensures few { IfOk result (λ blocks. length blocks.items ≤ count) }
{
    let mut list = Vec::new(alloc);
    let mut low = 0;
    for _ in 0..count {
        let block = block(reader, limits, low);
        if reader.has_failed() {
            return Ok(list);
        }
        list.push(block)?;
        low = block.first + u64::from(block.stripes);
    }
    Ok(list)
}

/// The number of blocks, and each.
pub(crate) fn blocks(
    alloc: Global,
    reader: &mut Reader,
    limits: &Limits,
) -> Result<Vec<Pointer>, NoMemory>
    requires { AreLimits limits.now }
    ensures blocks { IfOk result (λ blocks. Reads (state_of reader.old) (state_of reader.new) blocks.items (spec.blocks limits.now)) }
    ensures range { IfOk result (λ blocks. All (λ (b : Pointer). b.first + b.stripes ≤ 2 ^ 49) blocks.items) }
    ensures few { IfOk result (λ blocks. length blocks.items ≤ numbers.most_held limits.now.version) }
{
    let count = reader.number(4, 0, most_held(limits.version) as u64);
    blocks_of(alloc, reader, limits, count)
}

/// Whether the runs are just one, from a stripe up to another.
fn is_last(runs: &[Run], first: u64, upto: u64) -> bool
    ensures { result ≡ spec.same_runs runs.now (record { first = first; len = upto - first } ∷ []) }
{
    match runs {
        [last] => last.first == first && last.len == upto.saturating_sub(first),
        _ => false,
    }
}

/// Whether the runs are the maximal runs of the blocks' stripes.
pub(crate) fn are_spaces(runs: &[Run], blocks: &[Pointer]) -> bool
    requires { All (λ (b : Pointer). b.first + b.stripes ≤ 2 ^ 49) blocks.now }
    ensures { result ≡ spec.same_runs runs.now (spec.spaces_of blocks.now) }
{
    if blocks.is_empty() {
        return runs.is_empty();
    }
    let mut first = blocks[0].first;
    let mut upto = first + u64::from(blocks[0].stripes);
    let mut at = 0;
    for next in 1..blocks.len() {
        let block = blocks[next];
        if block.first != upto {
            let run = Run {
                first,
                len: upto.saturating_sub(first),
            };
            if at == runs.len() || runs[at] != run {
                return false;
            }
            at += 1;
            first = block.first;
        }
        upto = block.first + u64::from(block.stripes);
    }
    is_last(&runs[at..], first, upto)
}
