ghost use Rattle.std.specs.Prelude.{◌≡◌, OnOk, length};
ghost use Rattle.draid_session.specs.Arms.{ReservePhase};
ghost use Rattle.draid_session.specs.State.{State};
ghost use Rattle.draid_pool.specs.Carries.{CarriesOut};
ghost use Rattle.draid_pool.specs.Failing.{AreasLater};
ghost use Rattle.draid_pool.specs.Passes.{KeepsPasses};
ghost use Rattle.draid_pool.specs.Pools.{Represents};
ghost use Rattle.draid_pool.specs.Syncing.{Phase};
ghost use Rattle.draid_pool.specs.Whole.{IsWhole};
ghost use Rattle.draid_changes.specs.Walks.{ChangedBelow, Reserves, arms_in, end_of_reserving, events_at, events_in};

use crate::need::Need;
use draid_area::Area;
use draid_disks::{attach_events, reserve_for};
use draid_entries::ReserveFault;
use draid_pool::Pool;
use draid_rack::Rack;
use draid_shard::Shard;

/// How many events a change asks for in a metaslab.
fn events_in<R: Rack, A: Area>(shard: &Shard<R, A>, need: Need) -> u32
    ensures { result ≡ events_in need shard.now }
{
    match need {
        Need::Event => 1,
        Need::Attachment => attach_events(shard),
        Need::Spares { count } => count,
    }
}

/// How many arms come one after another in a change.
fn arms_in(need: Need) -> u32
    ensures { result ≡ arms_in need }
{
    match need {
        Need::Event | Need::Attachment => 1,
        Need::Spares { count } => count,
    }
}

/// Reserves in each metaslab the events that a change asks for there, and the memory for the changes of its arms.
pub(crate) fn reserve_all<R: Rack, A: Area>(
    pool: &mut Pool<R, A>,
    need: Need,
) -> Result<(), ReserveFault>
    requires whole { IsWhole R.Rack A.Area pool.old }
    ensures whole { IsWhole R.Rack A.Area pool.new }
    ensures objects { pool.new.own.objects ≡ pool.old.own.objects }
    ensures uber { pool.new.uber ≡ pool.old.uber }
    ensures later { AreasLater A.faults pool.old pool.new }
    ensures passes { KeepsPasses pool.old pool.new }
    ensures reserves { OnOk result (ChangedBelow (Reserves need) (length pool.old.metaslabs.shards.items) pool.old.metaslabs.shards.items pool.new.metaslabs.shards.items) }
    ensures carries { (x : State) → Represents R.Rack A.Area pool.old x
        → CarriesOut R.Rack A.Area pool.new x (Phase x (ReservePhase x.geometry x.perms (events_at need)) (end_of_reserving result)) }
{
    for metaslab in 0..pool.metaslabs.shards.len() {
        let shard = &mut pool.metaslabs.shards[metaslab];
        let events = events_in(shard, need);
        match reserve_for(shard, events, arms_in(need)) {
            Ok(()) => {}
            Err(fault) => return Err(fault),
        }
    }
    Ok(())
}
