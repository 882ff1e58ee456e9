ghost use Rattle.std.specs.Prelude.{◌≡◌, ◌<◌, ◌≤◌, ℕ, IfSome, IfNone, sum_by};
ghost use Rattle.draid_ranges.specs.Numbers.{IsRoom};
ghost use Rattle.draid_ranges.specs.Runs.{AreApart, has_in};

use crate::Run;

/// The lowest place within `from..to` from which on `len` numbers in a row are in the runs, if any.
pub(crate) fn lowest_room(runs: &[Run], len: u64, from: u64, to: u64) -> Option<u64>
    requires apart { AreApart runs.now }
    requires some { 0 < len }
    ensures found { IfSome result (IsRoom (has_in runs.now) len from to) }
    ensures lowest { IfSome result (λ p. (q : ℕ) → IsRoom (has_in runs.now) len from to q → p ≤ q) }
    ensures none { IfNone result ((q : ℕ) → ¬ (IsRoom (has_in runs.now) len from to q)) }
{
    for run in runs {
        let first = run.first.max(from);
        if run.end().min(to).saturating_sub(first) >= len {
            return Some(first);
        }
    }
    None
}

/// How many numbers the runs have.
pub(crate) fn total(runs: &[Run]) -> u64
    requires { AreApart runs.now }
    ensures { result ≡ sum_by (λ (run : Run). run.len) runs.now }
{
    let mut total = 0;
    for run in runs {
        total += run.len;
    }
    total
}
