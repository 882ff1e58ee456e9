ghost use Rattle.std.specs.Prelude.{◌≡◌, ◌+◌, ◌≤◌, vec_capacity, vec_len};

use draid_machine::Event;
use draid_names::NoMemory;

/// Why events can't be promised.
#[derive(Clone, Copy, PartialEq, Eq)]
pub enum ReserveFault {
    /// The limit leaves too few; so many are stored or owed.
    Worn { events: u64 },
    NoMemory,
}

impl From<NoMemory> for ReserveFault {
    ghost use Rattle.draid_entries.specs.declared.history.ReserveFault.TheVariants.{NoMemory};

    ghost from_gives = { λ _ fault. fault ≡ NoMemory };

    fn from(_error: NoMemory) -> ReserveFault {
        ReserveFault::NoMemory
    }
}

/// The events of a metaslab since its opening, in order. There is always room for those that are owed: that the calls
/// that were made may still add.
#[derive(Drop)]
pub struct History {
    pub(crate) events: Vec<Event>,
    /// How many are owed, with those that are reserved.
    pub(crate) owed: u64,
    /// How many are reserved and not used.
    pub(crate) reserved: u64,
    /// How many may be stored and owed in all.
    pub(crate) limit: u64,
    ghost room: { vec_len events + owed ≤ vec_capacity events },
    ghost within: { reserved ≤ owed },
}
