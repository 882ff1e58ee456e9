use crate::loan::KeptLoan;
use draid_area::Area;
use draid_entries::{Entries, History};
use draid_metaslab::Space;
use draid_pass::Pass;
use draid_perm::Perms;
use draid_rack::Rack;
use draid_slots::Slots;
use draid_spec::Geometry;
use std::alloc::Global;

/// One metaslab over its devices. Each call needs and keeps what `Valid` says of the fields.
#[derive(Drop)]
pub struct Shard<R: Rack, A: Area> {
    /// The metaslab's number.
    pub number: u32,
    pub geometry: Geometry,
    pub perms: Perms,
    pub rack: R,
    /// The arms of the child slots, with their logs.
    pub slots: Slots,
    pub space: Space,
    /// The rebuild or scrub that has the metaslab.
    pub pass: Option<Pass>,
    /// The number of the last pass.
    pub last_pass: u64,
    /// The number of the last loan since the opening.
    pub serial: u64,
    /// The loan that counts.
    pub kept: Option<KeptLoan>,
    /// The last loan that landed, whose room is used again.
    pub idle: Option<KeptLoan>,
    /// Room for the leaves on which the end of a pass fails.
    pub flushed: Vec<u64>,
    /// What was done since the opening.
    pub history: History,
    /// The blocks and the open writes.
    pub entries: Entries,
    /// The areas of the records of even and of odd groups.
    pub even: A,
    pub odd: A,
    /// The group in which blocks are born.
    pub open_group: u64,
    /// The group before it, while that is closed and not yet committed.
    pub closing: Option<u64>,
    /// Whether the closing group is sealed.
    pub sealed: bool,
    /// The last group that was committed.
    pub committed: u64,
    /// The version of the committed group, and the one that the next seal is to have.
    pub version: u32,
    pub asked: u32,
    /// The byte of the first block in the record from which the metaslab was opened; 0 in a new one.
    pub blocks_at: u64,
    /// Where memory is asked for.
    pub alloc: Global,
}
