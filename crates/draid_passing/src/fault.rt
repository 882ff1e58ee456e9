/// Why a pass isn't planned.
#[derive(Clone, Copy, PartialEq, Eq)]
pub enum PlanFault {
    /// The metaslab has a pass, with this number.
    PassRunning { number: u64 },
    /// A rebuild would have no target.
    Nothing,
    /// The limit leaves too few events; so many are stored or owed.
    Worn { events: u64 },
    /// No number is left for the pass, or no group for a rebuild.
    Last,
    NoMemory,
}

/// Why a rebuild can't run yet: open writes, the greatest birth, and the committed group that doesn't reach what it has to.
#[derive(Clone, Copy, PartialEq, Eq)]
pub struct NotYet {
    pub tickets: u32,
    pub birth: u64,
    pub committed: u64,
}
