//! The check record of the group that an import found is read, and the blocks that it names are looked for.
ghost use Rattle.std.specs.Prelude.{◌≡◌, ◌≤◌, ◌+◌, ◌*◌, ◌^◌, ℕ, IfErr, IfOk, IsErrOf};
ghost use Rattle.draid_names.specs.Faults.{Rose};
ghost use Rattle.draid_record.specs.Checks.{IsCheck, told_check};
ghost use Rattle.draid_record.specs.declared.fault.RecordFaultKind.{RecordFaultKind};
ghost use Rattle.draid_found.specs.Found.{AreReady};
ghost use Rattle.draid_uber.specs.Slots.{group_of};
ghost use Rattle.draid_uber.specs.Uber.{Valid, changed_of, count_of, kept_of};
ghost use Rattle.draid_import.specs.Checking.{IsBadCheck, IsCheckFault, IsChecked, KeepsUber, OwnCheck, check_fault_of};

use crate::fault::ImportFault;
use draid_area::Area;
use draid_found::first_lack;
use draid_names::NoMemory;
use draid_rack::Rack;
use draid_record::{CheckBody, RecordFaultKind};
use draid_shard::Shard;
use draid_uber::{CheckFault, Uber};
use std::alloc::Global;

/// Why a check record wasn't read.
fn check_fault(why: CheckFault) -> ImportFault
    ensures is { result ≡ check_fault_of why }
    ensures area { result ≡ ImportFault.Shelf → why ≡ CheckFault.Area }
    ensures fault { IsCheckFault result }
{
    match why {
        CheckFault::Area => ImportFault::Shelf,
        CheckFault::NoMemory => ImportFault::NoMemory,
        CheckFault::Record { at, kind } => ImportFault::Check { at, kind },
    }
}

/// Where the check record has the number of a block that it names.
fn place_of(at: u64) -> u64
    requires low { at ≤ 2 ^ 59 }
    ensures { result ≡ 30 + 16 * at }
{
    30 + 16 * at
}

/// Reads the check record of the committed group, and looks for the blocks that it names.
pub(crate) fn check_blocks<R: Rack, A: Area>(
    alloc: Global,
    shards: &[Shard<R, A>],
    uber: &mut Uber<A>,
) -> Result<CheckBody, ImportFault>
    requires ready { AreReady R.Rack shards.now }
    requires valid { Valid A.size uber.old }
    ensures same { KeepsUber A.Area uber.old uber.new }
    ensures changed { changed_of uber.new ≡ changed_of uber.old }
    ensures checked { IfOk result (λ check. IsChecked (OwnCheck A.Area uber.old) shards.now (told_check check)) }
    ensures range { IfOk result (λ check. IsCheck (group_of (kept_of uber.old)) (told_check check)) }
    ensures faulty { (place : ℕ) (kind : RecordFaultKind) → IsErrOf result (ImportFault.Check place kind) → IsBadCheck (OwnCheck A.Area uber.old) shards.now place kind }
    ensures cause { IsErrOf result ImportFault.Shelf → Rose (count_of A.faults uber.old) (count_of A.faults uber.new) }
    ensures fault { IfErr result IsCheckFault }
{
    let check = match uber.check() {
        Ok(check) => check,
        Err(why) => return Err(check_fault(why)),
    };
    match first_lack(alloc, shards, check.group, &check.drops) {
        Ok(None) => Ok(check),
        Ok(Some(at)) => Err(ImportFault::Check {
            at: place_of(at),
            kind: RecordFaultKind::Range,
        }),
        Err(NoMemory) => Err(ImportFault::NoMemory),
    }
}
