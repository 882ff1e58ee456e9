//! Space maps: what is allocated, as a list of allocations and freeings (OpenZFS, `space_map.c`).

#![tactic(auto)]

mod map;

pub use map::{Record, SpaceMap};
