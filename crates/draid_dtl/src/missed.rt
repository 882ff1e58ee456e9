ghost use Rattle.std.specs.Prelude.{◌≡◌, ◌+◌, ◌<◌, ◌≤◌, ◌||◌, ◌&&◌, ℕ, false, IfOk, OnOk, length, slice_index_or};
ghost use Rattle.draid_dtl.specs.Logs.{AreLevels, AreRaised, IsRaised, group_misses, mirror_misses};
ghost use Rattle.draid_ranges.specs.Numbers.{Has, Numbers, has};

use crate::Log;
use draid_ranges::RangeSet;
use std::alloc::{AllocError, Global};

/// What a mirror misses: the groups that each of the logs has.
pub fn mirror(alloc: Global, logs: &[Log]) -> Result<Log, AllocError>
    requires { 0 < length logs.now }
    ensures { IfOk result (λ log. Has log (mirror_misses logs.now)) }
{
    let mut missed = logs[0].copy(alloc)?;
    for at in 1..logs.len() {
        missed = missed.meet(alloc, &logs[at])?;
    }
    Ok(missed)
}

/// What a group of this parity misses: the groups that more than `parity` of the logs have.
pub fn group(alloc: Global, parity: u32, logs: &[Log]) -> Result<Log, AllocError>
    ensures { IfOk result (λ log. Has log (group_misses parity logs.now)) }
{
    if logs.len() <= parity as usize {
        return Ok(Log::new(alloc));
    }
    let mut levels = empty_levels(alloc, parity)?;
    for log in logs {
        raise(alloc, &mut levels, &log.groups)?;
    }
    last_level(levels, parity)
}

/// So many levels, and one more, with no group.
fn empty_levels(alloc: Global, parity: u32) -> Result<Vec<RangeSet>, AllocError>
    ensures len { IfOk result (λ levels. length levels.items ≡ parity + 1) }
    ensures empty { IfOk result (λ levels. (k : ℕ) (d : Numbers) → k < length levels.items → (x : ℕ) → has (slice_index_or levels.items k d) x ≡ false) }
{
    let mut levels = Vec::new(alloc);
    for _ in 0..=parity {
        levels.push(RangeSet::new(alloc))?;
    }
    Ok(levels)
}

/// Adds to each level what the level below it and the log both have, and to level 0 the log.
fn raise(alloc: Global, levels: &mut Vec<RangeSet>, log: &RangeSet) -> Result<(), AllocError>
    ensures { OnOk result (AreRaised levels.old.items levels.new.items log.now 0) }
{
    for at in (0..levels.len()).rev() {
        levels[at] = if at == 0 {
            levels[0].union(alloc, log)?
        } else {
            levels[at].union(alloc, &levels[at - 1].meet(alloc, log)?)?
        };
    }
    Ok(())
}

fn last_level(mut levels: Vec<RangeSet>, parity: u32) -> Result<Log, AllocError>
    requires { length levels.items ≡ parity + 1 }
    ensures { IfOk result (λ log. Has log (has (slice_index_or levels.items parity log))) }
{
    match levels.pop() {
        Some(groups) => Ok(Log { groups }),
        None => unreachable!(),
    }
}
