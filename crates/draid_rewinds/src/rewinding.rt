//! A pool goes back to its checkpoint, or gives it up.
ghost use Rattle.std.specs.Prelude.{◌≡◌, ◌≢◌, ◌+◌, ◌≤◌, None, Some, IsErrOf, nat_eq};
ghost use Rattle.std.specs.HashMap.{get};
ghost use Rattle.draid_session.specs.State.{State};
ghost use Rattle.draid_pool.specs.Carries.{CarriesOut};
ghost use Rattle.draid_pool.specs.Failing.{AreaRose, AreasLater};
ghost use Rattle.draid_pool.specs.Pointers.{SamePointers};
ghost use Rattle.draid_pool.specs.Pools.{Represents};
ghost use Rattle.draid_pool.specs.Syncing.{AreIdle};
ghost use Rattle.draid_pool.specs.Whole.{IsWhole};
ghost use Rattle.draid_uber.specs.Uber.{point_of};
ghost use Rattle.draid_rewinds.specs.Back.{DiscardDoes, LetsGo, RewindDoes, Reverted};
ghost use Rattle.draid_rewinds.specs.Tables.{AreNewestBorn};

use crate::fault::{BackFault, Discarded, Rewound};
use crate::giving::give_up;
use crate::tables::newest_born;
use draid_area::Area;
use draid_names::Pointer;
use draid_pool::{Pool, SyncFault};
use draid_rack::Rack;
use std::collections::HashMap;

/// Gives each object the bytes that it had at the checkpoint, gives that up, and commits the group in which it did. A group
/// that is closing is committed first.
pub fn rewind<R: Rack, A: Area>(pool: &mut Pool<R, A>) -> Result<Rewound, BackFault>
    requires whole { IsWhole R.Rack A.Area pool.old }
    ensures whole { IsWhole R.Rack A.Area pool.new }
    ensures later { AreasLater A.faults pool.old pool.new }
    ensures cause { IsErrOf result (BackFault.Sync SyncFault.Shelf) → AreaRose A.faults pool.old pool.new }
    // Where there is none, and where room was wanting, the objects have what they had.
    ensures none { IsErrOf result BackFault.Nothing → SamePointers pool.old pool.new }
    ensures room { IsErrOf result BackFault.NoMemory → SamePointers pool.old pool.new }
    ensures carries { (x : State) → Represents R.Rack A.Area pool.old x
        → CarriesOut R.Rack A.Area pool.new x (RewindDoes x result) }
{
    if let Err(why) = pool.finish() {
        return Err(BackFault::Sync { why });
    }
    let Some(group) = pool.uber.point().group() else {
        return Err(BackFault::Nothing);
    };
    let Ok(objects) = newest_born(pool.alloc, &pool.metaslabs.shards, group) else {
        return Err(BackFault::NoMemory);
    };
    go_back(pool, objects, group);
    match pool.sync() {
        Ok(synced) => Ok(Rewound {
            group: synced.group,
            objects: pool.objects(),
        }),
        Err(why) => Err(BackFault::Sync { why }),
    }
}

/// Gives the objects the blocks that they had at the checkpoint, frees those that were born behind it, and gives it up.
fn go_back<R: Rack, A: Area>(pool: &mut Pool<R, A>, objects: HashMap<u64, Pointer>, check: u64)
    requires whole { IsWhole R.Rack A.Area pool.old }
    requires idle { AreIdle pool.old.metaslabs.shards.items }
    requires some { (point_of pool.old.uber).group ≡ Some check }
    requires objects { AreNewestBorn pool.old.metaslabs.shards.items check (get nat_eq objects) }
    ensures whole { IsWhole R.Rack A.Area pool.new }
    ensures later { AreasLater A.faults pool.old pool.new }
    ensures carries { (x : State) → Represents R.Rack A.Area pool.old x → x.store.floor ≤ x.committed + 1
        → CarriesOut R.Rack A.Area pool.new x (Reverted (x.committed + 1) x.store) }
{
    pool.own.objects = objects;
    give_up(pool);
}

/// Gives up the checkpoint, with the blocks that it alone keeps, and commits the group in which it did. A group that is
/// closing is committed first. It changes no object.
pub fn discard<R: Rack, A: Area>(pool: &mut Pool<R, A>) -> Result<Discarded, BackFault>
    requires whole { IsWhole R.Rack A.Area pool.old }
    ensures whole { IsWhole R.Rack A.Area pool.new }
    ensures same { SamePointers pool.old pool.new }
    ensures later { AreasLater A.faults pool.old pool.new }
    ensures cause { IsErrOf result (BackFault.Sync SyncFault.Shelf) → AreaRose A.faults pool.old pool.new }
    ensures room { IsErrOf result BackFault.NoMemory → ⊥ }
    ensures carries { (x : State) → Represents R.Rack A.Area pool.old x
        → CarriesOut R.Rack A.Area pool.new x (DiscardDoes x result) }
{
    if let Err(why) = pool.finish() {
        return Err(BackFault::Sync { why });
    }
    if pool.uber.point().group().is_none() {
        return Err(BackFault::Nothing);
    }
    let freed = let_go(pool);
    match pool.sync() {
        Ok(synced) => Ok(Discarded {
            freed,
            group: synced.group,
        }),
        Err(why) => Err(BackFault::Sync { why }),
    }
}

/// Frees the blocks that the checkpoint alone keeps, and gives it up. The answer is how many they are.
fn let_go<R: Rack, A: Area>(pool: &mut Pool<R, A>) -> u64
    requires whole { IsWhole R.Rack A.Area pool.old }
    requires idle { AreIdle pool.old.metaslabs.shards.items }
    requires some { (point_of pool.old.uber).group ≢ None }
    ensures whole { IsWhole R.Rack A.Area pool.new }
    ensures same { SamePointers pool.old pool.new }
    ensures later { AreasLater A.faults pool.old pool.new }
    ensures carries { (x : State) → Represents R.Rack A.Area pool.old x → x.store.floor ≤ x.committed + 1
        → CarriesOut R.Rack A.Area pool.new x (LetsGo (x.committed + 1) x.store result) }
{
    give_up(pool)
}
