//! Tests of a metaslab: its slots, histories of its events, and what a rack has of its segments; a metaslab over its devices,
//! and the table, the history and the columns on which it stands. It offers nothing. A module is named after the crate, or the
//! part of it, that it tests; `devices` makes the devices of a metaslab, and `trials` tries in an empty one what `shard` and
//! `groups` have.

#![tactic(auto)]

#[cfg(test)]
mod calls;
#[cfg(test)]
mod columns;
#[cfg(test)]
mod devices;
#[cfg(test)]
mod disks;
#[cfg(test)]
mod entries;
#[cfg(test)]
mod groups;
#[cfg(test)]
mod rebuilds;
#[cfg(test)]
mod reopening;
#[cfg(test)]
mod replay;
#[cfg(test)]
mod segments;
#[cfg(test)]
mod shard;
#[cfg(test)]
mod slots;
#[cfg(test)]
mod stored;
#[cfg(test)]
mod trials;
