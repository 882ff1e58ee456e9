//! A checkpoint is made of the group that a sync commits, once that is closed in all metaslabs.
ghost use Rattle.std.specs.Prelude.{◌≡◌, ◌+◌, ◌≤◌, ◌<◌, None, IfOk, IsErrOf};
ghost use Rattle.draid_session.specs.State.{State};
ghost use Rattle.draid_pool.specs.Carries.{CarriesOut};
ghost use Rattle.draid_pool.specs.Failing.{AreaRose, AreasLater};
ghost use Rattle.draid_pool.specs.Pointers.{SamePointers};
ghost use Rattle.draid_pool.specs.Pools.{Represents, group_in};
ghost use Rattle.draid_pool.specs.Syncing.{AreIdle};
ghost use Rattle.draid_pool.specs.Whole.{IsWhole};
ghost use Rattle.draid_names.specs.declared.numbers.TheConstants.{LAST_NUMBER};
ghost use Rattle.draid_uber.specs.Uber.{point_of};
ghost use Rattle.draid_rewinds.specs.Taking.{HasRoomFor, TakeDoes, TakesDoes};

use crate::fault::TakeFault;
use crate::making::{close_all, go_on, make};
use draid_area::Area;
use draid_checkpoint::Check;
use draid_names::NoMemory;
use draid_pool::{Pool, SyncFault, Synced};
use draid_rack::Rack;

/// The most blocks that a check record can name.
const MOST_DROPS: u64 = 524_288;

/// Makes a checkpoint of the group that is open, and commits it. A group that is closing is committed first.
pub fn checkpoint<R: Rack, A: Area>(pool: &mut Pool<R, A>) -> Result<u64, TakeFault>
    requires whole { IsWhole R.Rack A.Area pool.old }
    ensures whole { IsWhole R.Rack A.Area pool.new }
    ensures same { SamePointers pool.old pool.new }
    ensures later { AreasLater A.faults pool.old pool.new }
    ensures cause { IsErrOf result (TakeFault.Sync SyncFault.Shelf) → AreaRose A.faults pool.old pool.new }
    ensures carries { (x : State) → Represents R.Rack A.Area pool.old x
        → CarriesOut R.Rack A.Area pool.new x (TakeDoes x result) }
{
    if let Err(why) = pool.finish() {
        return Err(TakeFault::Sync { why });
    }
    if let Some(group) = pool.uber.point().group() {
        return Err(TakeFault::Exists { group });
    }
    let Ok(point) = point_for(pool) else {
        return Err(TakeFault::NoMemory);
    };
    match take(pool, point) {
        Ok(synced) => Ok(synced.group),
        Err(why) => Err(TakeFault::Sync { why }),
    }
}

/// A checkpoint of the group that is open, with room for each live block, where there is none.
fn point_for<R: Rack, A: Area>(pool: &Pool<R, A>) -> Result<Check, NoMemory>
    requires low { group_in pool.now < LAST_NUMBER }
    ensures { IfOk result (λ point. HasRoomFor pool.now point) }
{
    let blocks = pool.objects();
    if blocks > MOST_DROPS {
        return Err(NoMemory);
    }
    Check::at(pool.alloc, pool.uber.committed() + 1, blocks)
}

/// Closes the open group in all metaslabs, makes this checkpoint of it, and commits it.
fn take<R: Rack, A: Area>(pool: &mut Pool<R, A>, point: Check) -> Result<Synced, SyncFault>
    requires whole { IsWhole R.Rack A.Area pool.old }
    requires idle { AreIdle pool.old.metaslabs.shards.items }
    requires none { (point_of pool.old.uber).group ≡ None }
    requires room { HasRoomFor pool.old point }
    ensures whole { IsWhole R.Rack A.Area pool.new }
    ensures same { SamePointers pool.old pool.new }
    ensures later { AreasLater A.faults pool.old pool.new }
    ensures cause { IsErrOf result SyncFault.Shelf → AreaRose A.faults pool.old pool.new }
    ensures carries { (x : State) → Represents R.Rack A.Area pool.old x → x.store.floor ≤ x.committed + 1
        → CarriesOut R.Rack A.Area pool.new x (TakesDoes x result) }
{
    let group = pool.uber.committed() + 1;
    if let Err(why) = close_all(pool, group) {
        return Err(why);
    }
    make(pool, point, group);
    go_on(pool, group)
}
