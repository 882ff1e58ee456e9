//! What a lane does that never has to be tried again.
ghost use Rattle.std.specs.Prelude.{◌≡◌, ◌≤◌, ◌+◌, ℕ, IsErrOf, length, true};
ghost use Rattle.draid_session.specs.State.{State};
ghost use Rattle.draid_spec.specs.Geometry.{IsGeometry};
ghost use Rattle.draid_store.specs.Answers.{ReadDoes};
ghost use Rattle.draid_store.specs.Batches.{SumTries};
ghost use Rattle.draid_store.specs.Fetching.{OwnsFrom};
ghost use Rattle.draid_store.specs.Pointers.{ReadFinds};
ghost use Rattle.draid_store.specs.PointerSums.{SumFinds};
ghost use Rattle.draid_lanes.specs.Lanes.{IsSameLane, IsWholeLane, table_of};
ghost use Rattle.draid_lanes.specs.Locks.{owned_by};
ghost use Rattle.draid_lanes.specs.Told.{SyncLane};
ghost use Rattle.draid_lanes.specs.Traces.{LaneTold};
ghost use Rattle.draid_lanes.specs.Waits.{SyncedIn};
ghost use Rattle.draid_lanes.specs.Failing.{AreaFailedIn};
ghost use Rattle.draid_works.specs.Lanes.{LaneCarries, LaneKnows, LaneKnowsLater};

use draid_area::Area;
use draid_lanes::{Gate, Lane, sync_in_lane};
use draid_names::{OBJECTS, ObjectFault};
use draid_pool::{SyncFault, Synced};
use draid_rack::Rack;
use draid_store::{SumFault, read_object, sum_objects};
use std::alloc::Global;
use std::sync::Wait;
use std::thread::Threads;

/// Reads the bytes last written to an object of the lane's.
pub fn read_in_lane<'a, 'b, R: Rack, A: Area, G: Gate, W: Wait>(
    alloc: Global,
    lane: &mut Lane<'a, 'b, R, A, G, W>,
    object: u64,
) -> Result<Vec<u8>, ObjectFault>
    requires whole { IsWholeLane R.Rack A.Area lane.old }
    requires own { owned_by lane.old.metaslabs.passes.items object ≡ true }
    requires geometry { IsGeometry lane.old.geometry }
    ensures whole { IsWholeLane R.Rack A.Area lane.new }
    ensures same { IsSameLane lane.old lane.new }
    ensures pass { lane.new.pass ≡ lane.old.pass }
    ensures own { lane.new.own ≡ lane.old.own }
    ensures read { ReadFinds (table_of lane.old object) result }
    ensures step { (x : State) → x.geometry ≡ lane.old.geometry → LaneKnows R.Rack A.Area lane.old x
        → LaneCarries R.Rack A.Area lane.old lane.new x (ReadDoes x object result) }
{
    read_object(
        alloc,
        &mut lane.metaslabs,
        &lane.own,
        &lane.geometry,
        object,
    )
}

/// Gives the SHA-256 digest (FIPS 180-4) of the bytes of `count` objects of the lane's from `first` on, one after another.
pub fn sum_in_lane<'a, 'b, R: Rack, A: Area, G: Gate, W: Wait>(
    rt: &(impl Threads + Sync),
    alloc: Global,
    lane: &mut Lane<'a, 'b, R, A, G, W>,
    first: u64,
    count: u64,
) -> Result<[u8; 32], SumFault>
    requires whole { IsWholeLane R.Rack A.Area lane.old }
    requires own { OwnsFrom (owned_by lane.old.metaslabs.passes.items) first count }
    requires geometry { IsGeometry lane.old.geometry }
    requires range { first + count ≤ OBJECTS }
    ensures whole { IsWholeLane R.Rack A.Area lane.new }
    ensures same { IsSameLane lane.old lane.new }
    ensures pass { lane.new.pass ≡ lane.old.pass }
    ensures own { lane.new.own ≡ lane.old.own }
    ensures sums { SumFinds (table_of lane.old) first count result }
    ensures step { (x : State) → x.geometry ≡ lane.old.geometry → LaneKnows R.Rack A.Area lane.old x
        → LaneCarries R.Rack A.Area lane.old lane.new x (SumTries x first count result) }
{
    sum_objects(
        rt,
        alloc,
        &mut lane.metaslabs,
        &lane.own,
        &lane.geometry,
        first,
        count,
    )
}

/// Commits the group that is open, and waits for open writes of other lanes that are in its way.
pub fn commit_in_lane<'a, 'b, R: Rack, A: Area, G: Gate, W: Wait>(
    lane: Lane<'a, 'b, R, A, G, W>,
) -> (Lane<'a, 'b, R, A, G, W>, Result<Synced, SyncFault>)
    requires whole { IsWholeLane R.Rack A.Area lane }
    ensures whole { IsWholeLane R.Rack A.Area result.0 }
    ensures same { IsSameLane lane.entry result.0 }
    ensures own { result.0.own ≡ lane.entry.own }
    ensures knows { (x : State) → LaneKnows R.Rack A.Area lane.entry x → LaneKnowsLater R.Rack A.Area result.0 x }
    ensures told { (x : State) → x.geometry ≡ lane.entry.geometry → length x.metaslabs ≡ x.geometry.props.metaslabs → LaneTold R.Rack A.Area x (SyncLane x result.1) lane.entry result.0 }
    ensures cause { IsErrOf result.1 SyncFault.Shelf → AreaFailedIn R.Rack A.Area lane.entry.uber.now lane.entry.metaslabs result.0.metaslabs lane.entry.pass result.0.pass }
    ensures syncs { SyncedIn R.Rack A.Area lane.entry.uber.now lane.entry.metaslabs result.0.metaslabs result.1 lane.entry.pass result.0.pass }
{
    let Lane {
        geometry,
        metaslabs,
        uber,
        mut pass,
        own,
    } = lane;
    let count = metaslabs.turns.len() as u32;
    let (metaslabs, result) = sync_in_lane(metaslabs, uber, &mut pass, count);
    let lane = Lane {
        geometry,
        metaslabs,
        uber,
        pass,
        own,
    };
    (lane, result)
}
