use crate::few::{FewArms, FewLeaves};
use crate::names::{ArmName, Key, Segment};
use draid_names::PassKind;

/// What a scrub's landing wrote of one column on one arm.
#[derive(Drop)]
pub struct Patched {
    pub column: u32,
    pub arm: ArmName,
    /// The rows that were written.
    pub written: Vec<u32>,
    /// Those of them that landed.
    pub landed: Vec<u32>,
}

/// What a call does to a metaslab. `failed` names a leaf once for each call on it that failed.
#[derive(Drop)]
pub enum Event {
    /// A ticket is opened.
    Begin {
        key: Key,
        first: u64,
        stripes: u32,
        len: u32,
        birth: u64,
        digest: [u8; 32],
    },
    /// A ticket's next column is written; it landed on these arms.
    Put {
        key: Key,
        landed: FewArms,
        failed: FewLeaves,
    },
    /// A ticket becomes a block, or ends as missed.
    Finish {
        key: Key,
    },
    /// A ticket is given up.
    Abort {
        key: Key,
    },
    /// A block is freed in a transaction group.
    Free {
        key: Key,
        group: u64,
    },
    /// A block is read.
    Fetch {
        key: Key,
        failed: Vec<u64>,
    },
    /// A sector of a leaf changes by itself, or fails to.
    Damage {
        leaf: u64,
        sector: u64,
        failed: bool,
    },
    Offline {
        leaf: u64,
    },
    Online {
        leaf: u64,
    },
    /// An arm joins a slot as its last.
    Attach {
        slot: u32,
        arm: ArmName,
    },
    /// An arm leaves its slot.
    Detach {
        slot: u32,
        arm: ArmName,
    },
    /// Version 2 is asked for, from the next transaction group on.
    Upgrade,
    /// The open transaction group is closed.
    Close {
        group: u64,
    },
    /// The closing group's record is made; these leaves couldn't be flushed.
    Seal {
        group: u64,
        failed: Vec<u64>,
    },
    /// The sealed group is committed.
    Commit {
        group: u64,
    },
    Plan {
        kind: PassKind,
    },
    /// A planned rebuild begins to run.
    Ready,
    /// The pass's next stripe or block is lent.
    Lend {
        failed: Vec<u64>,
    },
    /// A rebuild's loan comes back.
    LandStripe {
        pass: u64,
        serial: u64,
        failed: Vec<u64>,
    },
    /// A scrub's loan comes back. `unreadable`: no restored bytes have the digest.
    LandBlock {
        pass: u64,
        serial: u64,
        failed: Vec<u64>,
        patched: Vec<Patched>,
        unreadable: bool,
    },
    /// The pass ends with nothing left to lend.
    Done {
        failed: Vec<u64>,
    },
    /// The pass is ended before that.
    Cancel,
    /// The metaslab is opened from a record; a call cut off by a crash may have left some segments doubtful.
    Reopen {
        group: u64,
        doubtful: Vec<Segment>,
    },
}
