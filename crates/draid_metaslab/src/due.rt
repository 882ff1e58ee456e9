ghost use Rattle.std.specs.Prelude.{◌≡◌, ◌+◌, ◌^◌, ◌<◌, ◌≤◌, ◌||◌, ◌&&◌, ℕ, All, length, nat_le, count_by, if◌then◌else◌};
ghost use Rattle.draid_metaslab.specs.Spaces.{IsMapped, IsSpan, is_due};
ghost use Rattle.draid_spacemap.specs.Records.{Records, is_allocated};
ghost use Rattle.draid_ranges.specs.Numbers.{Has, has};
ghost use Rattle.draid_ranges.specs.Runs.{in_run};

use crate::Deferred;
use draid_ranges::{RangeSet, Run};
use draid_spacemap::SpaceMap;

/// Frees the run, if it comes back by this group.
fn free_due(free: &mut RangeSet, map: &mut SpaceMap, entry: Deferred, group: u64)
    requires span { IsSpan (2 ^ 48) entry.run.first entry.run.len }
    requires room { 0 < free.old.room }
    requires records { 0 < map.old.room }
    ensures members { Has free.new (λ x. has free.old x || (nat_le entry.group group && in_run entry.run x)) }
    ensures left { free.old.room ≤ free.new.room + (if nat_le entry.group group then 1 else 0) }
    ensures mapped { (total : ℕ) → IsMapped total free.old map.old → IsMapped total free.new map.new }
    ensures unused { map.old.room ≤ map.new.room + (if nat_le entry.group group then 1 else 0) }
{
    if entry.group <= group {
        free_run(free, map, entry.run);
    }
}

/// Frees a run, and writes that down.
pub(crate) fn free_run(free: &mut RangeSet, map: &mut SpaceMap, run: Run)
    requires span { IsSpan (2 ^ 48) run.first run.len }
    requires room { 0 < free.old.room }
    requires records { 0 < map.old.room }
    ensures members { Has free.new (λ x. has free.old x || in_run run x) }
    ensures left { free.old.room ≤ free.new.room + 1 }
    ensures mapped { (total : ℕ) → IsMapped total free.old map.old → IsMapped total free.new map.new }
    ensures unused { map.old.room ≤ map.new.room + 1 }
{
    let Ok(()) = free.insert(run.first, run.first + run.len - 1) else {
        unreachable!()
    };
    let Ok(()) = map.free(run) else {
        unreachable!()
    };
}

/// Frees what comes back by this group.
pub(crate) fn free_all_due(
    free: &mut RangeSet,
    map: &mut SpaceMap,
    deferred: &[Deferred],
    group: u64,
)
    requires spans { All (λ (entry : Deferred). IsSpan (2 ^ 48) entry.run.first entry.run.len) deferred.now }
    requires room { length deferred.now ≤ free.old.room }
    requires records { length deferred.now ≤ map.old.room }
    ensures members { Has free.new (λ x. has free.old x || is_due group deferred.now x) }
    ensures left { free.old.room ≤ free.new.room + count_by (λ (entry : Deferred). nat_le entry.group group) deferred.now }
    ensures mapped { (total : ℕ) → IsMapped total free.old map.old → IsMapped total free.new map.new }
    ensures unused { map.old.room ≤ map.new.room + count_by (λ (entry : Deferred). nat_le entry.group group) deferred.now }
{
    for entry in deferred {
        free_due(free, map, *entry, group);
    }
}
