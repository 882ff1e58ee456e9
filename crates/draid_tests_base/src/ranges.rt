use draid_ranges::{RangeSet, Run};
use std::alloc::{AllocError, Global};

static CUT: [Run; 2] = [Run { first: 0, len: 1 }, Run { first: 2, len: 2 }];

static MET: [Run; 1] = [Run { first: 2, len: 1 }];

static JOINED: [Run; 1] = [Run { first: 0, len: 4 }];

/// A set of 0, 2 and 3.
fn cut(alloc: Global) -> Result<RangeSet, AllocError> {
    let mut set = RangeSet::new(alloc);
    set.reserve(2)?;
    set.insert(0, 3)?;
    set.remove(1, 1)?;
    Ok(set)
}

/// Whether a set has these runs.
fn has_runs(set: Result<RangeSet, AllocError>, wanted: &[Run]) -> bool {
    match set {
        Ok(set) => set.runs() == wanted,
        Err(_) => false,
    }
}

/// Whether a set of three has its first run of two where that starts before 4, and none that ends before that.
fn is_found(set: &RangeSet) -> bool {
    set.first_run(2, 0, 4) == Some(2) && set.first_run(2, 0, 3).is_none() && set.count() == 3
}

/// Whether that set and one that gets 2 have 2 together, and it and one that has 1 in place of 2 have 0 to 3.
fn meets_and_joins(alloc: Global, set: &RangeSet, other: &mut RangeSet) -> bool {
    if other.insert(2, 2).is_err() || !has_runs(set.meet(alloc, other), MET.as_slice()) {
        return false;
    }
    other.cut_above(1);
    other.insert(1, 1).is_ok()
        && has_runs(set.union(alloc, other), JOINED.as_slice())
        && other.contains(1)
        && !other.contains(2)
}

/// Whether it is so of that set and an empty one.
fn are_met_and_joined(alloc: Global) -> bool {
    let mut other = RangeSet::new(alloc);
    match cut(alloc) {
        Ok(set) => is_found(&set) && meets_and_joins(alloc, &set, &mut other),
        Err(_) => false,
    }
}

/// How many runs of one number a long set has.
const MANY: u64 = 1_024;

/// Whether a set of so many even numbers has just these.
fn has_even_numbers(alloc: Global) -> bool {
    let mut set = RangeSet::new(alloc);
    for half in 0..MANY {
        if set.reserve(1).is_err() || set.insert(2 * half, 2 * half).is_err() {
            return false;
        }
    }
    set.contains(1_000) && !set.contains(1_001) && set.count() == MANY
}

#[test]
fn sets_have_what_was_put(rt: HostRuntime) {
    assert!(rt; has_even_numbers(rt.alloc()));
    assert!(rt; has_runs(cut(rt.alloc()), CUT.as_slice()));
    assert!(rt; are_met_and_joined(rt.alloc()));
}
