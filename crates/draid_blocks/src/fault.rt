ghost use Rattle.std.specs.Prelude.{◌≡◌};

use draid_names::NoMemory;

/// Why no write was begun. They are looked for in this order.
#[derive(Clone, Copy, PartialEq, Eq)]
pub enum BeginFault {
    /// The rebuild of this number has the metaslab.
    Disabled { pass: u64 },
    /// As many blocks and open writes as it may hold.
    Entries { held: u32 },
    /// No run of free stripes fits; this is the longest.
    NoRoom { largest: u64 },
    /// So many events are stored or owed, and the limit leaves too few.
    Worn { events: u64 },
    NoMemory,
}

impl From<NoMemory> for BeginFault {
    ghost use Rattle.draid_blocks.specs.declared.fault.BeginFault.TheVariants.{NoMemory};

    ghost from_gives = { λ _ fault. fault ≡ NoMemory };

    fn from(_error: NoMemory) -> BeginFault {
        BeginFault::NoMemory
    }
}

/// Why no block was fetched.
#[derive(Clone, Copy, PartialEq, Eq)]
pub enum FetchFault {
    /// The pointer is that of no live block.
    NotLive,
    /// So many events are stored or owed, and the limit leaves none.
    Worn { events: u64 },
    NoMemory,
}

/// A write ended, of which so many columns landed on no arm: more than there are parity columns.
#[derive(Clone, Copy)]
pub struct Missed {
    pub columns: u32,
}

/// The pointer is that of no live block.
#[derive(Clone, Copy)]
pub struct NotLive;
