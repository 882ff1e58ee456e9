ghost use Rattle.std.specs.Prelude.{◌≡◌, ◌↔◌, ◌+◌, ◌-◌, ◌<◌, ◌≤◌, ◌^◌, ◌||◌, ◌&&◌, not, ℕ, true, false, [], ◌∷◌, ◌++◌, All, IfOk, IsOk, IsTrue, OnOk, OnErr, map, if◌then◌else◌, vec_len, vec_capacity};
ghost use Rattle.draid_ranges.specs.Numbers.{Has, has};
ghost use Rattle.draid_ranges.specs.Runs.{in_run};
ghost use Rattle.draid_spacemap.specs.declared.map.Record.{Record};
ghost use Rattle.draid_spacemap.specs.Records.{Allocates, IsCondensed, IsLong, IsShortened, IsSpan, Records, allocation, freeing, is_allocated, is_allocated_by};

use draid_ranges::{RangeSet, Run};
use std::alloc::{AllocError, Global};
use std::marker::Model;

/// A run of stripes that was allocated or freed.
#[derive(Clone, Copy)]
pub struct Record {
    pub run: Run,
    pub allocates: bool,
}

/// What is allocated of a metaslab, as the records of what was allocated and freed.
#[derive(Drop)]
pub struct SpaceMap {
    records: Vec<Record>,
}

impl Model for SpaceMap {
    ghost Value = { Records };

    ghost view = { λ map. record { records = map.records.items; room = vec_capacity map.records - vec_len map.records } };

    ghost invariant = { λ map. All (λ (entry : Record). IsSpan entry.run) map.records.items };
}

impl SpaceMap {
    /// A map of which nothing is allocated.
    pub fn new(alloc: Global) -> SpaceMap
        ensures { Allocates result (λ x. false) }
    {
        SpaceMap {
            records: Vec::new(alloc),
        }
    }

    /// Makes room for so many records. Condenses first where the map is long for what is allocated.
    pub fn reserve(&mut self, alloc: Global, changes: u32) -> Result<(), AllocError>
        ensures same { Allocates self.new (is_allocated self.old) }
        ensures short { OnOk result (IsShortened self.old self.new) }
        ensures room { OnOk result (changes ≤ self.new.room) }
        ensures kept { self.old.room ≤ self.new.room }
        ensures refused { OnErr result (self.new ≡ self.old) }
    {
        let set = replayed(alloc, &self.records)?;
        if is_long(self.records.len(), set.runs().len()) {
            let spare = self.records.capacity() - self.records.len();
            self.records = allocations(alloc, set.runs(), spare.max(changes as usize))?;
            return Ok(());
        }
        self.records.reserve(changes as usize)
    }

    /// How many more records there is room for.
    pub fn room(&self) -> usize
        ensures { result ≡ self.now.room }
    {
        self.records.capacity() - self.records.len()
    }

    /// Allocates a run.
    pub fn alloc(&mut self, run: Run) -> Result<(), AllocError>
        requires span { IsSpan run }
        ensures ok { OnOk result (Allocates self.new (λ x. is_allocated self.old x || in_run run x)) }
        ensures err { OnErr result (Allocates self.new (is_allocated self.old)) }
        ensures record { OnOk result (self.new.records ≡ self.old.records ++ allocation run ∷ []) }
        ensures refused { OnErr result (self.new.records ≡ self.old.records) }
        ensures room { 0 < self.old.room → IsOk result }
        ensures left { self.old.room ≤ self.new.room + 1 }
    {
        self.records.push(Record {
            run,
            allocates: true,
        })?;
        Ok(())
    }

    /// Frees a run.
    pub fn free(&mut self, run: Run) -> Result<(), AllocError>
        requires span { IsSpan run }
        ensures ok { OnOk result (Allocates self.new (λ x. is_allocated self.old x && not (in_run run x))) }
        ensures err { OnErr result (Allocates self.new (is_allocated self.old)) }
        ensures record { OnOk result (self.new.records ≡ self.old.records ++ freeing run ∷ []) }
        ensures refused { OnErr result (self.new.records ≡ self.old.records) }
        ensures room { 0 < self.old.room → IsOk result }
        ensures left { self.old.room ≤ self.new.room + 1 }
    {
        self.records.push(Record {
            run,
            allocates: false,
        })?;
        Ok(())
    }

    /// The stripes whose last record is an allocation.
    pub fn replay(&self, alloc: Global) -> Result<RangeSet, AllocError>
        ensures { IfOk result (λ set. Has set (is_allocated self.now)) }
    {
        replayed(alloc, &self.records)
    }

    /// Leaves one allocation for each maximal run of what is allocated, and the room.
    pub fn condense(&mut self, alloc: Global) -> Result<(), AllocError>
        ensures same { Allocates self.new (is_allocated self.old) }
        ensures condensed { OnOk result (IsCondensed self.old self.new) }
        ensures kept { self.old.room ≤ self.new.room }
        ensures refused { OnErr result (self.new ≡ self.old) }
    {
        let set = replayed(alloc, &self.records)?;
        let spare = self.records.capacity() - self.records.len();
        self.records = allocations(alloc, set.runs(), spare)?;
        Ok(())
    }
}

fn replayed(alloc: Global, records: &[Record]) -> Result<RangeSet, AllocError>
    requires { All (λ (entry : Record). IsSpan entry.run) records.now }
    ensures { IfOk result (λ set. Has set (is_allocated_by false records.now)) }
{
    let mut set = RangeSet::new(alloc);
    for entry in records {
        apply(&mut set, *entry)?;
    }
    Ok(set)
}

fn apply(set: &mut RangeSet, entry: Record) -> Result<(), AllocError>
    requires { IsSpan entry.run }
    ensures { OnOk result (Has set.new (λ x. if in_run entry.run x then entry.allocates else has set.old x)) }
{
    let first = entry.run.first;
    let last = first + entry.run.len - 1;
    if entry.allocates {
        set.insert(first, last)
    } else {
        set.remove(first, last)
    }
}

/// Whether so many records are more than twice as many as the runs, and 64.
fn is_long(records: usize, runs: usize) -> bool
    ensures { IsTrue result ↔ IsLong records runs }
{
    records > runs.saturating_mul(2).saturating_add(64)
}

/// An allocation for each run, and room for so many records behind.
fn allocations(alloc: Global, runs: &[Run], spare: usize) -> Result<Vec<Record>, AllocError>
    ensures items { IfOk result (λ records. records.items ≡ map allocation runs.now) }
    ensures room { IfOk result (λ records. vec_len records + spare ≤ vec_capacity records) }
{
    let mut records = Vec::with_capacity(alloc, runs.len())?;
    for run in runs {
        records.push(Record {
            run: *run,
            allocates: true,
        })?;
    }
    records.reserve(spare)?;
    Ok(records)
}
