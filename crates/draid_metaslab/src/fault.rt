ghost use Rattle.std.specs.Prelude.{◌≡◌};

use std::alloc::AllocError;

/// Why no stripes were allocated.
#[derive(Clone, Copy, PartialEq, Eq)]
pub enum SpaceFault {
    /// No group has so many free stripes in a row; `largest` is the most that one has.
    NoRoom { largest: u64 },
    NoMemory,
}

impl From<AllocError> for SpaceFault {
    ghost use Rattle.draid_metaslab.specs.declared.fault.SpaceFault.TheVariants.{NoMemory};

    ghost from_gives = { λ _ fault. fault ≡ NoMemory };

    fn from(_error: AllocError) -> SpaceFault {
        SpaceFault::NoMemory
    }
}
