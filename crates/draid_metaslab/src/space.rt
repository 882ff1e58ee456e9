ghost use Rattle.std.specs.Prelude.{◌≡◌, ◌+◌, ◌-◌, ◌*◌, ◌<◌, ◌≤◌, ◌^◌, ◌||◌, ◌&&◌, ◌++◌, ◌∷◌, [], not, ℕ, true, false, All, filter, length, IfOk, IfErr, OnOk, OnErr, nat_lt, vec_len, vec_capacity};
ghost use Rattle.draid_metaslab.specs.Spaces.{Frees, IsKept, IsMapped, IsRefused, IsSound, IsSpan, Stripes, is_due, is_free, is_later};
ghost use Rattle.draid_metaslab.specs.Spots.{IsLargest, IsLowest};
ghost use Rattle.draid_ranges.specs.Numbers.{Has, Numbers, count_below, has};
ghost use Rattle.draid_ranges.specs.Runs.{has_in, in_run, is_between};
ghost use Rattle.draid_spacemap.specs.Records.{Allocates, is_allocated};
ghost use Rattle.draid_spec.specs.Geometry.{IsGeometry, metaslab_stripes};

use crate::SpaceFault;
use crate::due::{free_all_due, free_run};
use crate::spot::lowest_spot;
use draid_ranges::{RangeSet, Run};
use draid_spacemap::SpaceMap;
use draid_spec::Geometry;
use std::alloc::{AllocError, Global};
use std::marker::Model;

/// A run of stripes that comes back at the commit of a group.
#[derive(Clone, Copy)]
pub struct Deferred {
    pub run: Run,
    pub group: u64,
}

/// The free stripes of a metaslab, and the runs that come back later.
#[derive(Drop)]
pub struct Space {
    alloc: Global,
    height: u64,
    total: u64,
    free: RangeSet,
    /// What was allocated and freed, one record each.
    map: SpaceMap,
    deferred: Vec<Deferred>,
    /// How many runs are out and not deferred. There is room in memory for each to come back.
    held: u32,
    disabled: bool,
}

impl Model for Space {
    ghost Value = { Stripes };

    ghost view = { λ s. record { height = s.height; total = s.total; free = s.free.runs; deferred = s.deferred.items; held = s.held; disabled = s.disabled } };

    ghost invariant = { λ s. IsSound s.height s.total s.held (vec_capacity s.deferred) s.free s.map s.deferred.items };
}

impl Space {
    /// The space of a metaslab in which these runs are out. It has the room for each to come back.
    pub fn new(alloc: Global, geometry: &Geometry, taken: &[Run]) -> Result<Space, AllocError>
        requires geometry { IsGeometry geometry.now }
        requires taken { All (λ (run : Run). IsSpan (metaslab_stripes geometry.now) run.first run.len) taken.now }
        ensures free { IfOk result (λ space. Frees space (λ x. nat_lt x (metaslab_stripes geometry.now) && not (has_in taken.now x))) }
        ensures sizes { IfOk result (λ space. (space.height ≡ geometry.now.props.height) × (space.total ≡ metaslab_stripes geometry.now)) }
        ensures held { IfOk result (λ space. (space.held ≡ length taken.now) × (space.deferred ≡ [])) }
        ensures enabled { IfOk result (λ space. space.disabled ≡ false) }
    {
        let total = geometry.metaslab_stripes();
        let Ok(held) = u32::try_from(taken.len()) else {
            return Err(AllocError);
        };
        let mut free = untaken(alloc, total, taken)?;
        free.reserve(held)?;
        let mut map = taken_map(alloc, taken)?;
        map.reserve(alloc, held)?;
        let mut deferred = Vec::new(alloc);
        deferred.reserve(taken.len())?;
        Ok(Space {
            alloc,
            height: u64::from(geometry.props.height),
            total,
            free,
            map,
            deferred,
            held,
            disabled: false,
        })
    }

    /// Gives the lowest run of so many free stripes within one group, and makes the room that it needs
    /// to come back.
    pub fn allocate(&mut self, stripes: u64) -> Result<u64, SpaceFault>
        requires some { 0 < stripes }
        requires enabled { self.old.disabled ≡ false }
        ensures lowest { IfOk result (IsLowest (is_free self.old) self.old.height stripes) }
        ensures inside { IfOk result (λ first. first + stripes ≤ self.old.total) }
        ensures taken { IfOk result (λ first. Frees self.new (λ x. is_free self.old x && not (is_between first (first + stripes) x))) }
        ensures held { OnOk result (self.new.held ≡ self.old.held + 1) }
        ensures refused { IfErr result (IsRefused self.old stripes) }

        ensures same { OnErr result (Frees self.new (is_free self.old) × (self.new.held ≡ self.old.held)) }
        ensures deferred { self.new.deferred ≡ self.old.deferred }
        ensures kept { IsKept self.old self.new }
    {
        let first = match lowest_spot(self.free.runs(), self.height, stripes) {
            Ok(first) => first,
            Err(largest) => return Err(SpaceFault::NoRoom { largest }),
        };
        make_room(&mut self.free, &mut self.deferred, self.held)?;
        make_records(
            self.alloc,
            &mut self.map,
            self.held as usize + self.deferred.len() + 2,
        )?;
        take_run(
            &mut self.free,
            &mut self.map,
            Run {
                first,
                len: stripes,
            },
        );
        self.held += 1;
        Ok(first)
    }

    /// Frees a run that is out.
    pub fn release(&mut self, first: u64, stripes: u64)
        requires span { IsSpan self.old.total first stripes }
        requires held { 0 < self.old.held }
        ensures freed { Frees self.new (λ x. is_free self.old x || is_between first (first + stripes) x) }
        ensures held { self.new.held + 1 ≡ self.old.held }
        ensures deferred { self.new.deferred ≡ self.old.deferred }
        ensures kept { IsKept self.old self.new }
    {
        free_run(
            &mut self.free,
            &mut self.map,
            Run {
                first,
                len: stripes,
            },
        );
        self.held -= 1;
    }

    /// Lets a run that is out come back at the commit of a group.
    pub fn defer(&mut self, first: u64, stripes: u64, group: u64)
        requires span { IsSpan self.old.total first stripes }
        requires held { 0 < self.old.held }
        ensures same { Frees self.new (is_free self.old) }
        ensures held { self.new.held + 1 ≡ self.old.held }
        ensures deferred { self.new.deferred ≡ self.old.deferred ++ record { run = record { first = first; len = stripes }; group = group } ∷ [] }
        ensures kept { IsKept self.old self.new }
    {
        self.deferred.push_reserved(Deferred {
            run: Run {
                first,
                len: stripes,
            },
            group,
        });
        self.held -= 1;
    }

    /// Frees what was deferred up to a group.
    pub fn commit(&mut self, group: u64)
        ensures freed { Frees self.new (λ x. is_free self.old x || is_due group self.old.deferred x) }
        ensures deferred { self.new.deferred ≡ filter (is_later group) self.old.deferred }
        ensures held { self.new.held ≡ self.old.held }
        ensures kept { IsKept self.old self.new }
    {
        free_all_due(&mut self.free, &mut self.map, &self.deferred, group);
        self.deferred.retain(|entry| entry.group > group);
    }

    /// Takes no new blocks from here on.
    pub fn disable(&mut self)
        ensures { self.new ≡ record self.old { disabled = true } }
    {
        self.disabled = true;
    }

    /// Takes new blocks again.
    pub fn enable(&mut self)
        ensures { self.new ≡ record self.old { disabled = false } }
    {
        self.disabled = false;
    }

    /// The most free stripes in a row within one group.
    pub fn largest(&self) -> u64
        ensures { IsLargest (is_free self.now) self.now.height result }
    {
        match lowest_spot(self.free.runs(), self.height, self.height + 1) {
            Ok(_) => unreachable!(),
            Err(largest) => largest,
        }
    }

    /// What was allocated and freed, as records: they allocate just the stripes that aren't free.
    pub fn map(&self) -> &SpaceMap
        ensures { (x : ℕ) → x < self.now.total → is_allocated result.now x ≡ not (is_free self.now x) }
    {
        &self.map
    }

    /// How many stripes are free.
    pub fn free_stripes(&self) -> u64
        ensures { result ≡ count_below (is_free self.now) (2 ^ 48) }
    {
        self.free.count()
    }
}

/// Makes the room for one more run to be out and to come back.
fn make_room(free: &mut RangeSet, deferred: &mut Vec<Deferred>, held: u32) -> Result<(), AllocError>
    ensures free { Has free.new (has free.old) }
    ensures left { free.old.room ≤ free.new.room }
    ensures room { OnOk result (held + length deferred.old.items + 2 ≤ free.new.room) }
    ensures deferred { deferred.new.items ≡ deferred.old.items }
    ensures capacity { vec_capacity deferred.old ≤ vec_capacity deferred.new }
    ensures places { OnOk result (length deferred.old.items + held + 1 ≤ vec_capacity deferred.new) }
    ensures small { OnOk result (held + 2 < 2 ^ 32) }
{
    let Ok(changes) = u32::try_from(held as usize + deferred.len() + 2) else {
        return Err(AllocError);
    };
    free.reserve(changes)?;
    deferred.reserve(held as usize + 1)
}

/// Makes the room for so many more records, and for as many again, so that room is seldom made.
fn make_records(alloc: Global, map: &mut SpaceMap, records: usize) -> Result<(), AllocError>
    requires records { records < 2 ^ 60 }
    ensures same { Allocates map.new (is_allocated map.old) }
    ensures room { OnOk result (records ≤ map.new.room) }
    ensures left { map.old.room ≤ map.new.room }
{
    if records <= map.room() {
        return Ok(());
    }
    let Ok(changes) = u32::try_from(2 * records) else {
        return Err(AllocError);
    };
    map.reserve(alloc, changes)
}

/// Takes a run of free stripes, and writes that down.
fn take_run(free: &mut RangeSet, map: &mut SpaceMap, run: Run)
    requires span { IsSpan (2 ^ 48) run.first run.len }
    requires room { 0 < free.old.room }
    requires records { 0 < map.old.room }
    ensures members { Has free.new (λ x. has free.old x && not (in_run run x)) }
    ensures left { free.old.room ≤ free.new.room + 1 }
    ensures mapped { (total : ℕ) → IsMapped total free.old map.old → IsMapped total free.new map.new }
    ensures unused { map.old.room ≤ map.new.room + 1 }
{
    let Ok(()) = free.remove(run.first, run.first + run.len - 1) else {
        unreachable!()
    };
    let Ok(()) = map.alloc(run) else {
        unreachable!()
    };
}

/// An allocation for each run.
fn taken_map(alloc: Global, taken: &[Run]) -> Result<SpaceMap, AllocError>
    requires taken { All (λ (run : Run). IsSpan (2 ^ 48) run.first run.len) taken.now }
    ensures { IfOk result (λ map. Allocates map (has_in taken.now)) }
{
    let mut map = SpaceMap::new(alloc);
    for run in taken {
        map.alloc(*run)?;
    }
    Ok(map)
}

/// All stripes but those of the runs.
fn untaken(alloc: Global, total: u64, taken: &[Run]) -> Result<RangeSet, AllocError>
    requires total { (0 < total) × (total ≤ 2 ^ 48) }
    requires taken { All (λ (run : Run). IsSpan total run.first run.len) taken.now }
    ensures { IfOk result (λ set. Has set (λ x. nat_lt x total && not (has_in taken.now x))) }
{
    let mut set = RangeSet::new(alloc);
    set.insert(0, total - 1)?;
    for run in taken {
        set.remove(run.first, run.first + run.len - 1)?;
    }
    Ok(set)
}
