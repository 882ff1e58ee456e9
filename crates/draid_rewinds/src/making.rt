//! The steps of a sync that makes a checkpoint.
ghost use Rattle.std.specs.Prelude.{◌≡◌, ◌+◌, ◌≤◌, None, IsErrOf, OnOk, false};
ghost use Rattle.draid_session.specs.Groups as groups;
ghost use Rattle.draid_session.specs.State.{State};
ghost use Rattle.draid_pool.specs.Carries.{CarriesOut};
ghost use Rattle.draid_pool.specs.Failing.{AreaRose, AreasLater};
ghost use Rattle.draid_pool.specs.Pointers.{SamePointers};
ghost use Rattle.draid_pool.specs.Pools.{Represents, group_in};
ghost use Rattle.draid_pool.specs.Syncing.{AreClosing, AreIdle, Phase, end_of};
ghost use Rattle.draid_pool.specs.Whole.{IsWhole};
ghost use Rattle.draid_uber.specs.Uber.{point_of};
ghost use Rattle.draid_rewinds.specs.Taking.{GoesOnDoes, HasRoomFor, MakesPoint};

use draid_area::Area;
use draid_checkpoint::Check;
use draid_pool::{Pool, SyncFault, Synced, Syncing, close_each, go_on_sync};
use draid_rack::Rack;

/// Closes the open group in all metaslabs.
pub(crate) fn close_all<R: Rack, A: Area>(
    pool: &mut Pool<R, A>,
    group: u64,
) -> Result<(), SyncFault>
    requires whole { IsWhole R.Rack A.Area pool.old }
    requires next { group ≡ group_in pool.old + 1 }
    ensures whole { IsWhole R.Rack A.Area pool.new }
    ensures own { pool.new.own ≡ pool.old.own }
    ensures uber { pool.new.uber ≡ pool.old.uber }
    ensures later { AreasLater A.faults pool.old pool.new }
    ensures closing { OnOk result (AreClosing pool.new.metaslabs.shards.items group) }
    ensures not_shelf { IsErrOf result SyncFault.Shelf → ⊥ }
    ensures carries { (x : State) → Represents R.Rack A.Area pool.old x
        → CarriesOut R.Rack A.Area pool.new x (Phase x (groups.ClosePhase x.geometry x.perms group) (end_of result)) }
{
    let count = pool.geometry.props.metaslabs;
    close_each(&mut pool.metaslabs, count, group)
}

/// Makes this checkpoint of the group that is closing in all metaslabs, where there is none.
pub(crate) fn make<R: Rack, A: Area>(pool: &mut Pool<R, A>, point: Check, group: u64)
    requires whole { IsWhole R.Rack A.Area pool.old }
    requires next { group ≡ group_in pool.old + 1 }
    requires closing { AreClosing pool.old.metaslabs.shards.items group }
    requires none { (point_of pool.old.uber).group ≡ None }
    requires room { HasRoomFor pool.old point }
    ensures whole { IsWhole R.Rack A.Area pool.new }
    ensures own { pool.new.own ≡ pool.old.own }
    ensures later { AreasLater A.faults pool.old pool.new }
    ensures closing { AreClosing pool.new.metaslabs.shards.items group }
    ensures next { group ≡ group_in pool.new + 1 }
    ensures makes { (x : State) → Represents R.Rack A.Area pool.old x → x.store.floor ≤ x.committed + 1 → x.pending ≡ false
        → MakesPoint R.Rack A.Area pool.new group x }
{
    pool.uber.make_point(point, group);
}

/// Commits the group that is closing in all metaslabs and sealed in none.
pub(crate) fn go_on<R: Rack, A: Area>(
    pool: &mut Pool<R, A>,
    group: u64,
) -> Result<Synced, SyncFault>
    requires whole { IsWhole R.Rack A.Area pool.old }
    requires next { group ≡ group_in pool.old + 1 }
    requires closing { AreClosing pool.old.metaslabs.shards.items group }
    ensures whole { IsWhole R.Rack A.Area pool.new }
    ensures own { pool.new.own ≡ pool.old.own }
    ensures later { AreasLater A.faults pool.old pool.new }
    ensures cause { IsErrOf result SyncFault.Shelf → AreaRose A.faults pool.old pool.new }
    ensures carries { (x : State) → Represents R.Rack A.Area pool.old x
        → CarriesOut R.Rack A.Area pool.new x (GoesOnDoes x group result) }
{
    let count = pool.geometry.props.metaslabs;
    let mut syncing = Syncing {
        group,
        next: 0,
        thin: 0,
    };
    match go_on_sync(&mut pool.metaslabs, &mut pool.uber, count, &mut syncing) {
        Some(result) => result,
        None => unreachable!(),
    }
}
