/// Why the repair agent gives a slot a spare. Such a slot has one arm, a leaf.
#[derive(Clone, Copy, PartialEq, Eq)]
pub enum Cause {
    /// The leaf is offline.
    Offline,
    /// So many groups are logged for the leaf, over all metaslabs.
    Logged { groups: u64 },
}

/// What the repair agent did for a slot.
#[derive(Clone, Copy, PartialEq, Eq)]
pub enum Did {
    /// The slot has got this spare.
    Spared { spare: u32 },
    /// No spare was free.
    NoneFree,
}

/// An entry of the repair agent's journal.
#[derive(Clone, Copy, PartialEq, Eq)]
pub struct Entry {
    /// The entry's number in the session, from 1 on.
    pub number: u64,
    pub slot: u32,
    pub cause: Cause,
    pub did: Did,
}
