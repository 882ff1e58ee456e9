ghost use Rattle.std.specs.Prelude.{◌≡◌, ◌+◌, ◌-◌, ◌<◌, ◌≤◌, ◌^◌, ◌||◌, ◌&&◌, ◌⊎◌, ◌++◌, ℕ, All, IfOk, OnOk, OnErr, length, max, min};
ghost use Rattle.draid_ranges.specs.Edits.{runs_of};
ghost use Rattle.draid_ranges.specs.Merges.{IsNext};
ghost use Rattle.draid_ranges.specs.Runs.{AreApart, has_in, in_run};

use crate::Run;
use std::alloc::{AllocError, Global};

/// Puts `run` behind the runs, joined with the last one where they touch.
fn extend(runs: &mut Vec<Run>, run: Run) -> Result<(), AllocError>
    requires apart { AreApart runs.old.items }
    requires some { 0 < run.len }
    requires below { run.first + run.len ≤ 2 ^ 48 }
    requires order { All (λ (other : Run). other.first ≤ run.first) runs.old.items }
    ensures apart { OnOk result (AreApart runs.new.items) }
    ensures order { OnOk result (All (λ (other : Run). other.first ≤ run.first) runs.new.items) }
    ensures members { OnOk result ((x : ℕ) → has_in runs.new.items x ≡ (has_in runs.old.items x || in_run run x)) }
{
    let len = runs.len();
    if len > 0 && run.first <= runs[len - 1].end() {
        runs[len - 1] = runs[len - 1].joined(run);
        return Ok(());
    }
    runs.push(run)?;
    Ok(())
}

/// Of the runs from `i` and from `j` on the one that begins first, and where the others then begin.
fn next_run(left: &[Run], right: &[Run], i: usize, j: usize) -> (Run, usize, usize)
    requires left { AreApart left.now }
    requires right { AreApart right.now }
    requires inside { (i ≤ length left.now) × (j ≤ length right.now) }
    requires some { (i < length left.now) ⊎ (j < length right.now) }
    ensures { IsNext left.now right.now i j result.0 result.1 result.2 }
{
    if i == left.len() {
        return (right[j], i, j + 1);
    }
    if j == right.len() {
        return (left[i], i + 1, j);
    }
    if left[i].first <= right[j].first {
        return (left[i], i + 1, j);
    }
    (right[j], i, j + 1)
}

/// The runs of what either has.
pub(crate) fn united(alloc: Global, left: &[Run], right: &[Run]) -> Result<Vec<Run>, AllocError>
    requires left { AreApart left.now }
    requires right { AreApart right.now }
    ensures apart { IfOk result (λ runs. AreApart runs.items) }
    ensures members { IfOk result (λ runs. (x : ℕ) → has_in runs.items x ≡ (has_in left.now x || has_in right.now x)) }
{
    let mut runs = Vec::new(alloc);
    let (mut i, mut j) = (0, 0);
    while i < left.len() || j < right.len() {
        let (run, next_i, next_j) = next_run(left, right, i, j);
        extend(&mut runs, run)?;
        i = next_i;
        j = next_j;
    }
    Ok(runs)
}

/// Puts the numbers that both runs have behind the runs, if there are any.
fn push_common(runs: &mut Vec<Run>, left: Run, right: Run) -> Result<(), AllocError>
    requires below { (left.first + left.len < 2 ^ 64) × (right.first + right.len < 2 ^ 64) }
    ensures { OnOk result (runs.new.items ≡ runs.old.items ++ runs_of (max left.first right.first) (min (left.first + left.len) (right.first + right.len))) }
{
    let first = left.first.max(right.first);
    let end = left.end().min(right.end());
    if first < end {
        runs.push(Run::between(first, end))?;
    }
    Ok(())
}

/// The runs of what both have.
pub(crate) fn met(alloc: Global, left: &[Run], right: &[Run]) -> Result<Vec<Run>, AllocError>
    requires left { AreApart left.now }
    requires right { AreApart right.now }
    ensures apart { IfOk result (λ runs. AreApart runs.items) }
    ensures members { IfOk result (λ runs. (x : ℕ) → has_in runs.items x ≡ (has_in left.now x && has_in right.now x)) }
{
    let mut runs = Vec::new(alloc);
    let (mut i, mut j) = (0, 0);
    while i < left.len() && j < right.len() {
        push_common(&mut runs, left[i], right[j])?;
        if left[i].end() <= right[j].end() {
            i += 1;
        } else {
            j += 1;
        }
    }
    Ok(runs)
}
