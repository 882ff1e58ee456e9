ghost use Rattle.std.specs.Prelude.{◌≡◌};
ghost use Rattle.draid_words.specs.declared.mode.WordsFault.TheVariants as fault;

use draid_names::NoMemory;
use std::alloc::{AllocError, AllocFailed};

/// What the words ask for.
#[derive(Drop)]
pub enum Mode {
    /// A script from the source, on a pool in a folder, or in memory where there is none.
    Session { dir: Option<String> },
    /// The workload of a number.
    Workload { number: u64 },
}

/// Why the words give no mode.
#[derive(Clone, Copy)]
pub enum WordsFault {
    /// They are outside of what the program takes.
    Usage,
    NoMemory,
}

impl From<NoMemory> for WordsFault {
    ghost from_gives = { λ _ e. e ≡ fault.NoMemory };

    fn from(_: NoMemory) -> WordsFault {
        WordsFault::NoMemory
    }
}

impl From<AllocError> for WordsFault {
    ghost from_gives = { λ _ e. e ≡ fault.NoMemory };

    fn from(_: AllocError) -> WordsFault {
        WordsFault::NoMemory
    }
}
