ghost use Rattle.std.specs.Prelude.{◌≡◌, ◌+◌, ◌<◌, ◌≤◌, IfOk};
ghost use Rattle.draid_ranges.specs.Runs.{AreApart};
ghost use Rattle.draid_record.specs.Reader.{Reads, state_of};
ghost use Rattle.draid_record.specs.Record as spec;

use crate::reader::Reader;
use draid_dtl::Log;
use draid_names::{LAST_NUMBER, NUMBERS, NoMemory};
use draid_ranges::Run;
use std::alloc::Global;

/// A run of groups from `low` on.
fn run(reader: &mut Reader, low: u64) -> Run
    ensures run { Reads (state_of reader.old) (state_of reader.new) result (spec.run low) }
    ensures range { IfOk (state_of reader.new) (λ _. (low ≤ result.first) × (0 < result.len)) }
    ensures end { result.first + result.len ≤ NUMBERS }
{
    let first = reader.number(8, low, LAST_NUMBER);
    let last = reader.number(8, first, LAST_NUMBER);
    Run {
        first,
        len: (last + 1).saturating_sub(first),
    }
}

/// So many runs of groups, with a group between each two that is in none.
fn runs(alloc: Global, reader: &mut Reader, count: u64) -> Result<Vec<Run>, NoMemory>
    ensures runs { IfOk result (λ runs. Reads (state_of reader.old) (state_of reader.new) runs.items (spec.runs count)) }
    ensures apart { IfOk result (λ runs. AreApart runs.items) }
{
    let mut runs = Vec::new(alloc);
    let mut low = 1;
    for _ in 0..count {
        let run = run(reader, low);
        if reader.has_failed() {
            return Ok(runs);
        }
        runs.push(run)?;
        low = run.first + run.len + 1;
    }
    Ok(runs)
}

/// A log: the number of its runs, and each.
pub(crate) fn log(alloc: Global, reader: &mut Reader) -> Result<Log, NoMemory>
    ensures { IfOk result (λ log. Reads (state_of reader.old) (state_of reader.new) log.runs spec.log) }
{
    let count = reader.number(4, 0, u64::from(u32::MAX));
    let runs = runs(alloc, reader, count)?;
    Ok(Log::of(runs))
}
