use draid_dtl::Log;
use draid_machine::{ArmName, Held, Key, Segment};
use draid_names::PassKind;
use std::collections::{BTreeMap, BTreeSet};

/// The slot that an arm left, and the group that was open then.
#[derive(Clone, Copy)]
pub struct Detached {
    pub slot: u32,
    pub group: u64,
}

/// An arm that is there, or whose detachment isn't committed.
#[derive(Drop)]
pub struct Arm {
    pub offline: bool,
    /// Whether no pass has made it good since it was attached.
    pub fresh: bool,
    /// The transaction groups that it may have missed.
    pub log: Log,
    pub gone: Option<Detached>,
}

/// A pass with its targets in the order of slots.
#[derive(Drop)]
pub struct WorldPass {
    pub number: u64,
    pub kind: PassKind,
    pub targets: Vec<ArmName>,
    pub max: u64,
    /// The stripe at which it goes on.
    pub next: u64,
    pub errors: u64,
    pub running: bool,
}

/// The loan that counts.
#[derive(Drop)]
pub struct Lent {
    /// The block that has the stripe.
    pub key: Key,
    pub stripe: u64,
    pub serial: u64,
    /// For each column the arms that were read.
    pub read: Vec<Vec<ArmName>>,
    /// For each column the arm that it is taken from.
    pub chosen: Vec<Option<ArmName>>,
}

/// What a state and an image have in common.
#[derive(Drop)]
pub struct Tables {
    /// Blocks and open tickets.
    pub held: BTreeMap<Key, Held>,
    pub arms: BTreeMap<ArmName, Arm>,
    /// The arms of each slot in the order of attachment.
    pub order: Vec<Vec<ArmName>>,
    pub pass: Option<WorldPass>,
    /// The last number of a pass.
    pub last: u64,
}

/// What the record of a group says.
#[derive(Drop)]
pub struct Image {
    pub group: u64,
    /// The version that its record has.
    pub version: u32,
    pub tables: Tables,
}

/// The state of a metaslab, without bytes.
#[derive(Drop)]
pub struct World {
    pub open_group: u64,
    pub closing: Option<u64>,
    pub committed: u64,
    /// The version of the committed group.
    pub version: u32,
    /// The version that the next sealed group gets.
    pub asked: u32,
    pub tables: Tables,
    /// The last number of a loan.
    pub serial: u64,
    pub loan: Option<Lent>,
    pub image: Image,
    pub sealed: Option<Image>,
    pub present: BTreeSet<Segment>,
    pub aside: BTreeSet<Segment>,
    /// Segments that lost their place stay for the images, each for the group that was open then.
    pub kept: BTreeMap<Segment, u64>,
}
