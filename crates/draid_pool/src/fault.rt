/// Why the open group isn't closed. They are looked for in this order.
#[derive(Clone, Copy, PartialEq, Eq)]
pub enum CloseFault {
    /// So many events are stored or owed, and the limit leaves too few for a group.
    Worn { events: u64 },
    /// There is no number for a group after it.
    Last,
    NoMemory,
}

/// What a sealed group has lost: so many of its blocks have a column whose arms don't answer or missed the group.
#[derive(Clone, Copy, PartialEq, Eq)]
pub struct Sealed {
    pub thin: u64,
}

/// Why the closing group isn't sealed.
#[derive(Clone, Copy, PartialEq, Eq)]
pub enum SealFault {
    /// So many open writes were begun up to it.
    NotYet { tickets: u32 },
    /// A call on the area of its records failed.
    Area,
    NoMemory,
}

/// Why no group was committed.
#[derive(Clone, Copy)]
pub enum SyncFault {
    /// A metaslab has too many events.
    Worn,
    /// The open group has the last number.
    Last,
    /// The area of a metaslab's records or that of the uberblock failed.
    Shelf,
    NoMemory,
}

/// A sync: the group that it committed, and how many of its blocks have a column that no arm has as it was written.
#[derive(Clone, Copy)]
pub struct Synced {
    pub group: u64,
    pub thin: u64,
}

/// A sync that is under way: its group is closing in all metaslabs, those below the next one are sealed, and so many blocks
/// of these are thin.
#[derive(Clone, Copy)]
pub struct Syncing {
    pub group: u64,
    pub next: u32,
    pub thin: u64,
}
