ghost use Rattle.std.specs.Prelude.{◌≡◌};

use std::alloc::{AllocError, AllocFailed};

/// Want of memory, the one refusal whose cause no contract names.
#[derive(Clone, Copy, PartialEq, Eq)]
pub struct NoMemory;

impl From<AllocError> for NoMemory {
    fn from(_error: AllocError) -> NoMemory {
        NoMemory
    }
}

impl<T: Drop> From<AllocFailed<T>> for NoMemory {
    fn from(_failed: AllocFailed<T>) -> NoMemory {
        NoMemory
    }
}

/// A call on a device failed, and the device's count of faults rose in that call.
#[derive(Clone, Copy, PartialEq, Eq)]
pub struct Failed;

/// Why a call on a device gave nothing.
#[derive(Clone, Copy, PartialEq, Eq)]
pub enum DeviceFault {
    /// The device failed, and its own count of faults rose in that call.
    Failed,
    /// There was no memory.
    NoMemory,
}

impl From<NoMemory> for DeviceFault {
    ghost use Rattle.draid_names.specs.declared.fault.DeviceFault.{DeviceFault};

    ghost from_gives = { λ _ fault. fault ≡ DeviceFault.NoMemory };

    fn from(_error: NoMemory) -> DeviceFault {
        DeviceFault::NoMemory
    }
}

impl From<AllocError> for DeviceFault {
    ghost use Rattle.draid_names.specs.declared.fault.DeviceFault.{DeviceFault};

    ghost from_gives = { λ _ fault. fault ≡ DeviceFault.NoMemory };

    fn from(_error: AllocError) -> DeviceFault {
        DeviceFault::NoMemory
    }
}

impl<T: Drop> From<AllocFailed<T>> for DeviceFault {
    ghost use Rattle.draid_names.specs.declared.fault.DeviceFault.{DeviceFault};

    ghost from_gives = { λ _ fault. fault ≡ DeviceFault.NoMemory };

    fn from(_failed: AllocFailed<T>) -> DeviceFault {
        DeviceFault::NoMemory
    }
}
