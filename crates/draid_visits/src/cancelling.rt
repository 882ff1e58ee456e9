ghost use Rattle.std.specs.Prelude.{◌≡◌, ◌≤◌, None, true};
ghost use Rattle.draid_shard.specs.Fits.{Valid};
ghost use Rattle.draid_shard.specs.declared.shard.Shard.{Shard};
ghost use Rattle.draid_session.specs.State.{State};
ghost use Rattle.draid_pool.specs.Carries.{CarriesOut};
ghost use Rattle.draid_pool.specs.Drifts.{passes_number};
ghost use Rattle.draid_pool.specs.Failing.{AreasLater};
ghost use Rattle.draid_pool.specs.Pointers.{SamePointers};
ghost use Rattle.draid_pool.specs.Pools.{Represents};
ghost use Rattle.draid_pool.specs.Rounds.{EachIs};
ghost use Rattle.draid_pool.specs.Threads.{AllStay, KeepsWhole, all_of};
ghost use Rattle.draid_pool.specs.Whole.{IsWhole};
ghost use Rattle.draid_visits.specs.Cancelling.{CancelDoes, CancelsEach};
ghost use Rattle.draid_visits.specs.Visiting.{NoPasses};

use crate::holding::CancelOp;
use draid_area::Area;
use draid_pool::{Metaslabs, Pool};
use draid_rack::Rack;

/// Ends the pass of each metaslab that has one, and counts them.
pub fn cancel<R: Rack, A: Area>(pool: &mut Pool<R, A>) -> u32
    requires whole { IsWhole R.Rack A.Area pool.old }
    ensures whole { IsWhole R.Rack A.Area pool.new }
    ensures same { SamePointers pool.old pool.new }
    ensures later { AreasLater A.faults pool.old pool.new }
    ensures carries { (x : State) → Represents R.Rack A.Area pool.old x → CarriesOut R.Rack A.Area pool.new x (CancelDoes x result) }
    ensures passes { NoPasses pool.new }
{
    let count = pool.geometry.props.metaslabs;
    cancel_each(&mut pool.metaslabs, count)
}

/// Ends the pass of each of so many metaslabs that has one, and counts them. Who has the passes may do it, whatever others do
/// to the metaslabs in between.
pub fn cancel_each<R: Rack, A: Area, M: Metaslabs<R, A>>(metaslabs: &mut M, count: u32) -> u32
    requires fits { M.fits metaslabs.old }
    requires few { count ≤ 64 }
    requires own { M.owns metaslabs.old passes_number ≡ true }
    requires valid { EachIs count (Valid R.Rack) (M.last metaslabs.old) }
    ensures fits { M.fits metaslabs.new }
    ensures locks { M.locks metaslabs.new ≡ M.locks metaslabs.old }
    ensures owns { M.owns metaslabs.new ≡ M.owns metaslabs.old }
    ensures stay { AllStay (M.owns metaslabs.old) (M.last metaslabs.old) (M.last metaslabs.new) }
    ensures whole { KeepsWhole R.Rack (M.owns metaslabs.old) (all_of (M.owns metaslabs.old)) (M.last metaslabs.old) (M.last metaslabs.new) }
    ensures none { EachIs count (λ (shard : Shard R A). shard.pass ≡ None) (M.last metaslabs.new) }
    ensures cancels { CancelsEach R.Rack A.Area M.last M.went M.shared (M.owns metaslabs.old) count metaslabs.old result metaslabs.new }
{
    let mut ended = 0;
    for metaslab in 0..count {
        let op = metaslabs.hold(metaslab, CancelOp { out: 0 });
        ended += op.out;
    }
    ended
}
