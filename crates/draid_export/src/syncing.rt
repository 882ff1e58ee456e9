//! What an export makes safe before the pool is given back.
ghost use Rattle.std.specs.Prelude.{◌≡◌, ◌≤◌, ◌↔◌, IfOk, IsErrOf, IsTrue, OnOk};
ghost use Rattle.draid_session.specs.State.{State};
ghost use Rattle.draid_pool.specs.Carries.{CarriesOut};
ghost use Rattle.draid_pool.specs.Failing.{AreaRose, AreasLater, RacksLater};
ghost use Rattle.draid_pool.specs.Keeping.{AllArmsStay, AllAskedStay};
ghost use Rattle.draid_pool.specs.Passes.{KeepsPasses};
ghost use Rattle.draid_pool.specs.Pointers.{SamePointers};
ghost use Rattle.draid_pool.specs.Pools.{Represents, group_in};
ghost use Rattle.draid_pool.specs.Whole.{IsWhole};
ghost use Rattle.draid_export.specs.Exporting.{ExportDoes, FoundUnsynced, HasUnsynced, IsSafe};

use crate::unsynced::any_unsynced;
use draid_area::Area;
use draid_pool::{Pool, SyncFault};
use draid_rack::Rack;

/// Makes all that the pool holds safe, as an export wants it: a sync comes where a metaslab isn't synced, or something
/// befell the checkpoint since the committed group. The answer is the committed group.
pub fn sync_for_export<R: Rack, A: Area>(pool: &mut Pool<R, A>) -> Result<u64, SyncFault>
    requires whole { IsWhole R.Rack A.Area pool.old }
    ensures whole { IsWhole R.Rack A.Area pool.new }
    ensures same { SamePointers pool.old pool.new }
    ensures later { AreasLater A.faults pool.old pool.new }
    ensures passes { KeepsPasses pool.old pool.new }
    ensures racks { RacksLater R.faults pool.old pool.new }
    ensures arms { AllArmsStay pool.old pool.new }
    ensures asked { AllAskedStay pool.old pool.new }
    ensures names { IfOk result (λ group. group ≡ group_in pool.new) }
    ensures grows { OnOk result (group_in pool.old ≤ group_in pool.new) }
    ensures cause { IsErrOf result SyncFault.Shelf → AreaRose A.faults pool.old pool.new }
    ensures carries { (x : State) → Represents R.Rack A.Area pool.old x
        → CarriesOut R.Rack A.Area pool.new x (ExportDoes x result) }
{
    if is_safe(pool) {
        return Ok(pool.committed());
    }
    match pool.sync() {
        Ok(synced) => Ok(synced.group),
        Err(fault) => Err(fault),
    }
}

/// Whether all that the pool has is safe: each metaslab is synced, and nothing befell the checkpoint since the committed
/// group.
fn is_safe<R: Rack, A: Area>(pool: &Pool<R, A>) -> bool
    ensures safe { (x : State) → Represents R.Rack A.Area pool.now x → IsTrue result ↔ IsSafe x }
{
    if has_unsynced(pool) {
        return false;
    }
    !pool.uber.has_news()
}

/// Whether a metaslab has something that no sync has made safe: an export makes a sync just there.
pub fn has_unsynced<R: Rack, A: Area>(pool: &Pool<R, A>) -> bool
    ensures found { FoundUnsynced pool.now.metaslabs.shards.items result }
    ensures unsynced { (x : State) → Represents R.Rack A.Area pool.now x → IsTrue result ↔ HasUnsynced x }
{
    any_unsynced(&pool.metaslabs.shards)
}
