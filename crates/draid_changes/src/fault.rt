ghost use Rattle.std.specs.Prelude.{◌≡◌};
ghost use Rattle.draid_pool.specs.declared.fault.SyncFault.{SyncFault};
ghost use Rattle.draid_changes.specs.Answers.{IsFor};

use draid_names::SlotFault;
use draid_pool::SyncFault;

/// Why a pool's arms weren't changed.
#[derive(Clone, Copy)]
pub enum ArmFault {
    /// The rule on slots and arms that is broken first.
    Slot { why: SlotFault },
    /// A metaslab has too many events.
    Worn,
    /// The area of a metaslab's records or that of the uberblock failed.
    Shelf,
    NoMemory,
}

/// Why a group that was closing couldn't be committed first. That group isn't the last.
pub(crate) fn arm_fault(fault: SyncFault) -> ArmFault
    requires { (fault ≡ SyncFault.Last) → ⊥ }
    ensures { IsFor fault result }
{
    match fault {
        SyncFault::Worn => ArmFault::Worn,
        SyncFault::Last => unreachable!(),
        SyncFault::Shelf => ArmFault::Shelf,
        SyncFault::NoMemory => ArmFault::NoMemory,
    }
}
