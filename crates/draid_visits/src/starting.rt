//! The beginning of the visit of a metaslab, in a hold.
ghost use Rattle.std.specs.Prelude.{◌≡◌, true};
ghost use Rattle.draid_pool.specs.Drifts.{passes_number};
ghost use Rattle.draid_pool.specs.Threads.{AllStay, KeepsWhole, all_of};
ghost use Rattle.draid_visits.specs.Starts.{BeginsBy, IsBegun, IsNotRunning, LeftSo, MayStartIn};

use crate::holding::StartOp;
use draid_area::Area;
use draid_names::PassKind;
use draid_passing::PlanFault;
use draid_pool::{Metaslabs, SyncFault};
use draid_rack::Rack;

/// How the pass of a metaslab began.
#[derive(Clone, Copy)]
pub enum Begun {
    /// It stands at this stripe of the metaslab.
    At { stripe: u64 },
    /// There is none, since a rebuild would have no target.
    Nothing,
    /// None could be planned.
    Stopped { why: SyncFault },
}

/// Has a pass of a metaslab go on, or plans one, in a hold.
pub(crate) fn begin_visit<R: Rack, A: Area, M: Metaslabs<R, A>>(
    metaslabs: &mut M,
    kind: PassKind,
    metaslab: u32,
) -> Begun
    requires fits { M.fits metaslabs.old }
    requires own { M.owns metaslabs.old passes_number ≡ true }
    requires may { LeftSo metaslab (MayStartIn R.Rack kind) (M.last metaslabs.old) }
    ensures fits { M.fits metaslabs.new }
    ensures locks { M.locks metaslabs.new ≡ M.locks metaslabs.old }
    ensures owns { M.owns metaslabs.new ≡ M.owns metaslabs.old }
    ensures stay { AllStay (M.owns metaslabs.old) (M.last metaslabs.old) (M.last metaslabs.new) }
    ensures whole { KeepsWhole R.Rack (M.owns metaslabs.old) (all_of (M.owns metaslabs.old)) (M.last metaslabs.old) (M.last metaslabs.new) }
    ensures begins { BeginsBy R.Rack A.Area M.last M.went M.shared (M.owns metaslabs.old) kind metaslab metaslabs.old result metaslabs.new }
{
    let op = metaslabs.hold(metaslab, StartOp { kind, out: None });
    let Some(came) = op.out else { unreachable!() };
    begun_by(came)
}

/// What the answer of a plan says of the beginning.
fn begun_by(came: Result<u64, PlanFault>) -> Begun
    requires { IsNotRunning came }
    ensures { IsBegun came result }
{
    match came {
        Ok(stripe) => Begun::At { stripe },
        Err(PlanFault::Nothing) => Begun::Nothing,
        Err(PlanFault::PassRunning { .. }) => unreachable!(),
        Err(PlanFault::Worn { .. }) => Begun::Stopped {
            why: SyncFault::Worn,
        },
        Err(PlanFault::Last) => Begun::Stopped {
            why: SyncFault::Last,
        },
        Err(PlanFault::NoMemory) => Begun::Stopped {
            why: SyncFault::NoMemory,
        },
    }
}
