use draid_pool::SyncFault;

/// Why no checkpoint was made, or why its group wasn't committed.
#[derive(Clone, Copy)]
pub enum TakeFault {
    /// There is one, of this group.
    Exists { group: u64 },
    /// There is no room for the blocks that it may come to keep alone.
    NoMemory,
    /// No group could be committed.
    Sync { why: SyncFault },
}

/// Why a pool didn't go back to its checkpoint or give it up, or why the group in which it did wasn't committed.
#[derive(Clone, Copy)]
pub enum BackFault {
    /// There is none.
    Nothing,
    /// There is no room for the table of what the objects had.
    NoMemory,
    /// No group could be committed.
    Sync { why: SyncFault },
}

/// A pool went back to its checkpoint: so many objects have bytes then, and this group is committed.
#[derive(Clone, Copy)]
pub struct Rewound {
    pub group: u64,
    pub objects: u64,
}

/// A checkpoint was given up: so many blocks that it alone kept were freed, and this group is committed.
#[derive(Clone, Copy)]
pub struct Discarded {
    pub freed: u64,
    pub group: u64,
}
