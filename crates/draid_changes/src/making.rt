ghost use Rattle.std.specs.Prelude.{◌≡◌, ◌≤◌, IsErrOf, OnOk, length};
ghost use Rattle.draid_uber.specs.Uber.{next_leaf_of};
ghost use Rattle.draid_session.specs.Arms.{MakePhase};
ghost use Rattle.draid_session.specs.State.{State};
ghost use Rattle.draid_pool.specs.Carries.{CarriesOut};
ghost use Rattle.draid_pool.specs.Failing.{AreasLater};
ghost use Rattle.draid_pool.specs.Pools.{Represents};
ghost use Rattle.draid_pool.specs.Syncing.{Phase};
ghost use Rattle.draid_pool.specs.Whole.{IsWhole};
ghost use Rattle.draid_changes.specs.Making.{Makes, RackRose, end_of_making};
ghost use Rattle.draid_changes.specs.Walks.{ChangedBelow};

use draid_area::Area;
use draid_disks::make_leaf;
use draid_names::DeviceFault;
use draid_pool::Pool;
use draid_rack::Rack;

/// Makes a leaf of a number that none has yet in each metaslab, as large as the others.
pub(crate) fn make_all<R: Rack, A: Area>(
    pool: &mut Pool<R, A>,
    leaf: u64,
) -> Result<(), DeviceFault>
    requires whole { IsWhole R.Rack A.Area pool.old }
    requires unused { next_leaf_of pool.old.uber ≤ leaf }
    ensures whole { IsWhole R.Rack A.Area pool.new }
    ensures objects { pool.new.own.objects ≡ pool.old.own.objects }
    ensures uber { pool.new.uber ≡ pool.old.uber }
    ensures later { AreasLater A.faults pool.old pool.new }
    ensures cause { IsErrOf result DeviceFault.Failed → RackRose R.faults pool.old pool.new }
    ensures makes { OnOk result (ChangedBelow (Makes R.Rack leaf) (length pool.old.metaslabs.shards.items) pool.old.metaslabs.shards.items pool.new.metaslabs.shards.items) }
    ensures carries { (x : State) → Represents R.Rack A.Area pool.old x
        → CarriesOut R.Rack A.Area pool.new x (Phase x (MakePhase x.geometry x.perms leaf) (end_of_making result)) }
{
    for metaslab in 0..pool.metaslabs.shards.len() {
        match make_leaf(&mut pool.metaslabs.shards[metaslab], leaf) {
            Ok(()) => {}
            Err(fault) => return Err(fault),
        }
    }
    Ok(())
}
