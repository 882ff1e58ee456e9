ghost use Rattle.std.specs.Prelude.{◌≡◌, ◌^◌, ◌+◌, ◌-◌, ◌<◌, ◌≤◌, ◌∷◌, ◌++◌, take, drop, length, IsOk, OnOk, OnErr, vec_len, vec_capacity};
ghost use Rattle.std.specs.List.{AllWithin};
ghost use Rattle.draid_ranges.specs.Edits.{IsHull, front_of, sides_of};
ghost use Rattle.draid_ranges.specs.Runs.{AreApart, AreWithin, end_of};

use crate::Run;
use std::alloc::AllocError;

/// Takes the runs `from..to` out.
pub(crate) fn cut(runs: &mut Vec<Run>, from: usize, to: usize)
    requires { (from ≤ to) × (to ≤ vec_len runs.old) }
    ensures items { runs.new.items ≡ take from runs.old.items ++ drop to runs.old.items }
    ensures len { vec_len runs.new + (to - from) ≡ vec_len runs.old }
    ensures capacity { vec_capacity runs.new ≡ vec_capacity runs.old }
{
    runs.drain(from..to);
}

/// Puts `run` in the place of the runs `from..to`. Memory is asked for only where there are none.
pub(crate) fn put(runs: &mut Vec<Run>, from: usize, to: usize, run: Run) -> Result<(), AllocError>
    requires { (from ≤ to) × (to ≤ vec_len runs.old) }
    ensures ok { OnOk result (runs.new.items ≡ take from runs.old.items ++ run ∷ drop to runs.old.items) }
    ensures err { OnErr result (runs.new.items ≡ runs.old.items) }
    ensures room { (from < to → IsOk result) × (vec_len runs.old < vec_capacity runs.old → IsOk result) }
    ensures left { vec_capacity runs.old + vec_len runs.new ≤ vec_capacity runs.new + vec_len runs.old + 1 }
    ensures kept { from < to → vec_capacity runs.old + vec_len runs.new ≤ vec_capacity runs.new + vec_len runs.old }
{
    if from == to {
        runs.insert(from, run)?;
        return Ok(());
    }
    runs[from] = run;
    cut(runs, from + 1, to);
    Ok(())
}

/// How many runs from the front on end below `bound`.
pub(crate) fn ending_before(runs: &[Run], bound: u64) -> usize
    requires { AreApart runs.now }
    ensures inside { result ≤ length runs.now }
    ensures front { AreWithin 0 (take result runs.now) bound }
    ensures behind { AllWithin (λ run. bound ≤ end_of run) runs.now result (length runs.now) }
{
    for (at, run) in runs.iter().enumerate() {
        if run.end() >= bound {
            return at;
        }
    }
    runs.len()
}

/// Joins `run` with those from `from` on that touch it. Answers the whole, and where the others begin.
pub(crate) fn absorb(runs: &[Run], from: usize, run: Run) -> (Run, usize)
    requires apart { AreApart runs.now }
    requires inside { from ≤ length runs.now }
    requires front { AreWithin 0 (take from runs.now) run.first }
    requires behind { AllWithin (λ other. run.first ≤ end_of other) runs.now from (length runs.now) }
    requires below { run.first + run.len ≤ 2 ^ 48 }
    ensures whole { IsHull runs.now from result.1 run result.0 }
    ensures apart { AreWithin (end_of result.0 + 1) (drop result.1 runs.now) (2 ^ 48 + 1) }
{
    let mut whole = run;
    for to in from..runs.len() {
        if runs[to].first > whole.end() {
            return (whole, to);
        }
        whole = whole.joined(runs[to]);
    }
    (whole, runs.len())
}

/// Leaves of the runs `from..to`, which make up `whole`, what is below `first` and from `end` on.
pub(crate) fn keep_sides(
    runs: &mut Vec<Run>,
    from: usize,
    to: usize,
    whole: Run,
    first: u64,
    end: u64,
) -> Result<(), AllocError>
    requires order { (from ≤ to) × (to ≤ vec_len runs.old) }
    requires below { whole.first + whole.len < 2 ^ 64 }
    requires around { (whole.first ≤ first) × (end ≤ whole.first + whole.len) }
    requires none { to ≡ from → (whole.first ≡ first) × (whole.first + whole.len ≡ end) }
    ensures ok { OnOk result (runs.new.items ≡ take from runs.old.items ++ sides_of whole first end ++ drop to runs.old.items) }
    ensures err { OnErr result (runs.new.items ≡ runs.old.items) }
    ensures room { vec_len runs.old < vec_capacity runs.old → IsOk result }
    ensures no_left { whole.first ≡ first → IsOk result }
    ensures left { vec_capacity runs.old + vec_len runs.new ≤ vec_capacity runs.new + vec_len runs.old + 1 }
    ensures kept { whole.first ≡ first → vec_capacity runs.old + vec_len runs.new ≤ vec_capacity runs.new + vec_len runs.old }
{
    match (whole.first < first, end < whole.end()) {
        (false, false) => cut(runs, from, to),
        (true, false) => put(runs, from, to, Run::between(whole.first, first))?,
        (false, true) => put(runs, from, to, Run::between(end, whole.end()))?,
        (true, true) => {
            put(runs, from + 1, to, Run::between(end, whole.end()))?;
            runs[from] = Run::between(whole.first, first);
        }
    }
    Ok(())
}

/// Leaves of the runs from `from` on only the first one's numbers up to `last`.
pub(crate) fn shorten(runs: &mut Vec<Run>, from: usize, last: u64)
    requires inside { from ≤ vec_len runs.old }
    requires below { from < vec_len runs.old → last + 1 < 2 ^ 64 }
    ensures items { runs.new.items ≡ take from runs.old.items ++ front_of (drop from runs.old.items) last }
    ensures len { vec_len runs.new ≤ vec_len runs.old }
    ensures capacity { vec_capacity runs.new ≡ vec_capacity runs.old }
{
    if from < runs.len() && runs[from].first <= last {
        let run = runs[from];
        runs[from] = Run::between(run.first, last + 1);
        runs.truncate(from + 1);
    } else {
        runs.truncate(from);
    }
}
