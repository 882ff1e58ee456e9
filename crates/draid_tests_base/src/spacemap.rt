use draid_ranges::Run;
use draid_spacemap::SpaceMap;
use std::alloc::{AllocError, Global};

/// The runs that are allocated below.
static RUNS: [Run; 2] = [Run { first: 0, len: 1 }, Run { first: 2, len: 2 }];

/// Allocates those in an empty map.
fn allocate(alloc: Global, map: &mut SpaceMap) -> Result<(), AllocError> {
    map.reserve(alloc, 3)?;
    map.alloc(Run { first: 0, len: 4 })?;
    map.free(Run { first: 1, len: 1 })
}

/// Whether a map is replayed to those runs.
fn is_replayed(alloc: Global, map: &SpaceMap) -> bool {
    match map.replay(alloc) {
        Ok(found) => found.runs() == RUNS.as_slice(),
        Err(_) => false,
    }
}

/// Whether it is before the map is condensed, and behind that.
fn is_replayed_twice(alloc: Global) -> bool {
    let mut map = SpaceMap::new(alloc);
    if allocate(alloc, &mut map).is_err() || !is_replayed(alloc, &map) {
        return false;
    }
    map.condense(alloc).is_ok() && is_replayed(alloc, &map)
}

#[test]
fn a_map_is_replayed_and_condensed(rt: HostRuntime) {
    assert!(rt; is_replayed_twice(rt.alloc()));
}
