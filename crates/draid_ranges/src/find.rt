ghost use Rattle.std.specs.Prelude.{◌≡◌, ◌+◌, ◌-◌, ◌*◌, ◌<◌, ◌≤◌, ◌^◌, true, length};
ghost use Rattle.std.specs.declared.cmp.Ordering.TheVariants.{Less, Equal, Greater};
ghost use Rattle.draid_ranges.specs.Runs.{AreApart, end_of, has_in, in_run};

use crate::Run;
use crate::steps::Steps;
use std::cmp::Ordering;
use std::sync::ledger::{Blank, Ledger};

/// Whether `x` lies before the run, in it or behind it. That is one step.
fn place<L: Ledger>(x: u64, run: Run, steps: &mut Steps<L>) -> Ordering
    ensures before { result ≡ Less → x < run.first }
    ensures inside { result ≡ Equal → in_run run x ≡ true }
    ensures behind { result ≡ Greater → end_of run ≤ x }
    ensures step { steps.new ≡ steps.old + 1 }
{
    steps.tick();
    if x < run.first {
        return Ordering::Less;
    }
    if run.contains(x) {
        return Ordering::Equal;
    }
    Ordering::Greater
}

/// Whether one of the runs has `x`, found by halving.
pub(crate) fn find<L: Ledger>(runs: &[Run], x: u64, steps: &mut Steps<L>) -> bool
    requires { AreApart runs.now }
    ensures found { result ≡ has_in runs.now x }
    ensures later { steps.old ≤ steps.new }
    ensures cost { 2 ^ (steps.new - steps.old) ≤ 2 * length runs.now + 1 }
{
    let (mut low, mut high) = (0, runs.len());
    while low < high {
        let middle = low + (high - low) / 2;
        match place(x, runs[middle], steps) {
            Ordering::Less => high = middle,
            Ordering::Equal => return true,
            Ordering::Greater => low = middle + 1,
        }
    }
    false
}

/// The same, with no count of the steps.
pub(crate) fn find_from<L: Ledger>(runs: &[Run], x: u64, blank: Blank) -> bool
    requires apart { AreApart runs.now }
    requires name { blank.name ≡ L.name }
    requires parts { blank.parts ≡ L.parts }
    requires some { 0 < blank.parts }
    ensures { result ≡ has_in runs.now x }
{
    find(runs, x, &mut Steps::<L>::begin(blank))
}
