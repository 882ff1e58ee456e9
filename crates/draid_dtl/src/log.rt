ghost use Rattle.std.specs.Prelude.{◌≡◌, ◌==◌, ◌+◌, ◌-◌, ◌<◌, ◌≤◌, ◌^◌, ◌||◌, ◌&&◌, not, ℕ, false, nat_le, nat_lt, IfOk, IsOk, OnOk, OnErr};
ghost use Rattle.draid_ranges.specs.Numbers.{AreRuns, Has, Numbers, count_below, has};
ghost use Rattle.draid_ranges.specs.Runs.{AreApart, is_between};

use draid_ranges::{RangeSet, Run};
use std::alloc::{AllocError, Global};
use std::marker::Model;

/// A set of transaction groups below 2^48.
#[derive(Drop)]
pub struct Log {
    pub(crate) groups: RangeSet,
}

impl Model for Log {
    ghost Value = { Numbers };

    ghost view = { λ log. log.groups };
}

impl Log {
    /// The empty log.
    pub fn new(alloc: Global) -> Log
        ensures { Has result (λ x. false) }
    {
        Log {
            groups: RangeSet::new(alloc),
        }
    }

    /// The groups from 1 to `group`.
    pub fn upto(alloc: Global, group: u64) -> Result<Log, AllocError>
        requires { group < 2 ^ 48 }
        ensures { IfOk result (λ log. Has log (is_between 1 (group + 1))) }
    {
        let mut groups = RangeSet::new(alloc);
        if group > 0 {
            groups.insert(1, group)?;
        }
        Ok(Log { groups })
    }

    /// The log that has these maximal runs of groups.
    pub fn of(runs: Vec<Run>) -> Log
        requires { AreApart runs.items }
        ensures { result.runs ≡ runs.items }
    {
        Log {
            groups: RangeSet::of(runs),
        }
    }

    /// Makes room for so many changes.
    pub fn reserve(&mut self, changes: u32) -> Result<(), AllocError>
        ensures same { Has self.new (has self.old) }
        ensures apart { AreApart self.new.runs }
        ensures room { OnOk result (changes ≤ self.new.room) }
        ensures kept { self.old.room ≤ self.new.room }
    {
        self.groups.reserve(changes)
    }

    /// Adds a group.
    pub fn dirty(&mut self, group: u64) -> Result<(), AllocError>
        requires { group < 2 ^ 48 }
        ensures ok { OnOk result (Has self.new (λ x. has self.old x || x == group)) }
        ensures err { OnErr result (Has self.new (has self.old)) }
        ensures apart { AreApart self.new.runs }
        ensures room { 0 < self.old.room → IsOk result }
        ensures left { self.old.room ≤ self.new.room + 1 }
    {
        self.groups.insert(group, group)
    }

    /// Makes it the log of the groups from 1 to `group`.
    pub fn fill(&mut self, group: u64)
        requires range { group < 2 ^ 48 }
        requires room { 0 < self.old.room }
        ensures members { Has self.new (is_between 1 (group + 1)) }
        ensures left { self.old.room ≤ self.new.room + 1 }
    {
        self.groups.clear();
        if group > 0 {
            let Ok(()) = self.groups.insert(1, group) else {
                unreachable!()
            };
        }
    }

    /// Takes the groups up to `upto` out.
    pub fn excise(&mut self, upto: u64)
        requires { upto < 2 ^ 48 }
        ensures members { Has self.new (λ x. has self.old x && nat_lt upto x) }
        ensures left { self.old.room ≤ self.new.room }
    {
        let Ok(()) = self.groups.remove(0, upto) else {
            unreachable!()
        };
    }

    /// Takes the groups above `group` out.
    pub fn cut_above(&mut self, group: u64)
        ensures members { Has self.new (λ x. has self.old x && nat_le x group) }
        ensures left { self.old.room ≤ self.new.room }
    {
        self.groups.cut_above(group);
    }

    /// Whether the log has a group.
    pub fn contains(&self, group: u64) -> bool
        ensures { result ≡ has self.now group }
    {
        self.groups.contains(group)
    }

    /// How many groups it has.
    pub fn count(&self) -> u64
        ensures count { result ≡ count_below (has self.now) (2 ^ 48) }
        ensures low { (x : ℕ) → 2 ^ 48 ≤ x → has self.now x ≡ false }
    {
        self.groups.count()
    }

    /// The maximal runs of its groups, in ascending order.
    pub fn runs(&self) -> &[Run]
        ensures maximal { AreRuns self.now result.now }
        ensures same { result.now ≡ self.now.runs }
    {
        self.groups.runs()
    }

    pub(crate) fn copy(&self, alloc: Global) -> Result<Log, AllocError>
        ensures { IfOk result (λ log. Has log (has self.now)) }
    {
        let nothing = RangeSet::new(alloc);
        Ok(Log {
            groups: self.groups.union(alloc, &nothing)?,
        })
    }

    /// The groups that both logs have.
    pub(crate) fn meet(&self, alloc: Global, other: &Log) -> Result<Log, AllocError>
        ensures { IfOk result (λ log. Has log (λ x. has self.now x && has other.now x)) }
    {
        Ok(Log {
            groups: self.groups.meet(alloc, &other.groups)?,
        })
    }
}
