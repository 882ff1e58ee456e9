ghost use Rattle.std.specs.Prelude.{◌≡◌, ◌+◌, ◌-◌, ◌*◌, ◌<◌, ◌≤◌, ◌^◌, ◌||◌, ◌&&◌, not, ℕ, false, length, vec_len, vec_capacity, OnOk, OnErr, IfOk, IsOk, nat_le, IfSome, IfNone};
ghost use Rattle.draid_ranges.specs.Numbers.{AreRuns, Has, IsRoom, Numbers, count_below, has};
ghost use Rattle.draid_ranges.specs.Runs.{AreApart, has_in, is_between};

use crate::Run;
use crate::edit::{absorb, ending_before, keep_sides, put, shorten};
use crate::find::{find, find_from};
use crate::merge::{met, united};
use crate::room::{lowest_room, total};
use crate::steps::Steps;
use std::alloc::{AllocError, Global};
use std::marker::{Brand, Model};
use std::sync::ledger::{Blank, Ledger};

/// A set of numbers below 2^48.
#[derive(Drop)]
pub struct RangeSet {
    runs: Vec<Run>,
}

impl Model for RangeSet {
    ghost Value = { Numbers };

    ghost view = { λ s. record { runs = s.runs.items; room = vec_capacity s.runs - vec_len s.runs } };

    ghost invariant = { λ s. AreApart s.runs.items };
}

impl RangeSet {
    /// The empty set.
    pub fn new(alloc: Global) -> RangeSet
        ensures { Has result (λ x. false) }
    {
        RangeSet {
            runs: Vec::new(alloc),
        }
    }

    /// The set that has these maximal runs.
    pub fn of(runs: Vec<Run>) -> RangeSet
        requires { AreApart runs.items }
        ensures { result.runs ≡ runs.items }
    {
        RangeSet { runs }
    }

    /// Makes room for so many changes.
    pub fn reserve(&mut self, changes: u32) -> Result<(), AllocError>
        ensures same { Has self.new (has self.old) }
        ensures apart { AreApart self.new.runs }
        ensures room { OnOk result (changes ≤ self.new.room) }
        ensures kept { self.old.room ≤ self.new.room }
    {
        self.runs.reserve(changes as usize)
    }

    /// Adds the numbers from `first` to `last`.
    pub fn insert(&mut self, first: u64, last: u64) -> Result<(), AllocError>
        requires order { first ≤ last }
        requires range { last < 2 ^ 48 }
        ensures ok { OnOk result (Has self.new (λ x. has self.old x || is_between first (last + 1) x)) }
        ensures err { OnErr result (Has self.new (has self.old)) }
        ensures apart { AreApart self.new.runs }
        ensures room { 0 < self.old.room → IsOk result }
        ensures left { self.old.room ≤ self.new.room + 1 }
    {
        let at = ending_before(&self.runs, first);
        let (whole, end) = absorb(&self.runs, at, Run::between(first, last + 1));
        put(&mut self.runs, at, end, whole)
    }

    /// Takes the numbers from `first` to `last` out. Memory is asked for, and room used, only where a run falls in two,
    /// which no run does from which all up to `last` go.
    pub fn remove(&mut self, first: u64, last: u64) -> Result<(), AllocError>
        requires order { first ≤ last }
        requires range { last < 2 ^ 48 }
        ensures ok { OnOk result (Has self.new (λ x. has self.old x && not (is_between first (last + 1) x))) }
        ensures err { OnErr result (Has self.new (has self.old)) }
        ensures room { 0 < self.old.room → IsOk result }
        ensures from_zero { first ≡ 0 → IsOk result }
        ensures left { self.old.room ≤ self.new.room + 1 }
        ensures kept { first ≡ 0 → self.old.room ≤ self.new.room }
    {
        let at = ending_before(&self.runs, first);
        let (whole, end) = absorb(&self.runs, at, Run::between(first, last + 1));
        keep_sides(&mut self.runs, at, end, whole, first, last + 1)
    }

    /// Takes all members out.
    pub fn clear(&mut self)
        ensures members { Has self.new (λ x. false) }
        ensures left { self.old.room ≤ self.new.room }
    {
        self.runs.clear();
    }

    /// Takes out what is above `last`.
    pub fn cut_above(&mut self, last: u64)
        ensures members { Has self.new (λ x. has self.old x && nat_le x last) }
        ensures left { self.old.room ≤ self.new.room }
    {
        let at = ending_before(&self.runs, last.saturating_add(2));
        shorten(&mut self.runs, at, last)
    }

    /// Whether `x` is a member.
    pub fn contains(&self, x: u64) -> bool
        ensures { result ≡ has self.now x }
    {
        find_from::<Brand>(&self.runs, x, Blank::new(1))
    }

    /// The same. A step is one comparison of `x` with one run.
    pub fn contains_in<L: Ledger>(&self, x: u64, steps: &mut Steps<L>) -> bool
        ensures found { result ≡ has self.now x }
        ensures later { steps.old ≤ steps.new }
        ensures cost { 2 ^ (steps.new - steps.old) ≤ 2 * length self.now.runs + 1 }
    {
        find(&self.runs, x, steps)
    }

    /// What either set has.
    pub fn union(&self, alloc: Global, other: &RangeSet) -> Result<RangeSet, AllocError>
        ensures { IfOk result (λ set. Has set (λ x. has self.now x || has other.now x)) }
    {
        Ok(RangeSet {
            runs: united(alloc, &self.runs, &other.runs)?,
        })
    }

    /// What both sets have.
    pub fn meet(&self, alloc: Global, other: &RangeSet) -> Result<RangeSet, AllocError>
        ensures { IfOk result (λ set. Has set (λ x. has self.now x && has other.now x)) }
    {
        Ok(RangeSet {
            runs: met(alloc, &self.runs, &other.runs)?,
        })
    }

    /// How many members there are.
    pub fn count(&self) -> u64
        ensures count { result ≡ count_below (has self.now) (2 ^ 48) }
        ensures low { (x : ℕ) → 2 ^ 48 ≤ x → has self.now x ≡ false }
    {
        total(&self.runs)
    }

    /// The lowest place within `from..to` from which on `len` numbers in a row are members, if any.
    pub fn first_run(&self, len: u64, from: u64, to: u64) -> Option<u64>
        requires { 0 < len }
        ensures found { IfSome result (IsRoom (has self.now) len from to) }
        ensures lowest { IfSome result (λ p. (q : ℕ) → IsRoom (has self.now) len from to q → p ≤ q) }
        ensures none { IfNone result ((q : ℕ) → ¬ (IsRoom (has self.now) len from to q)) }
    {
        lowest_room(&self.runs, len, from, to)
    }

    /// The maximal runs of members, in ascending order.
    pub fn runs(&self) -> &[Run]
        ensures maximal { AreRuns self.now result.now }
        ensures same { result.now ≡ self.now.runs }
    {
        self.runs.as_slice()
    }
}
