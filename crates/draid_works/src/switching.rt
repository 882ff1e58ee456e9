//! A leaf that goes offline or comes back in a lane: it holds the uberblock throughout, and the metaslabs one after another.
ghost use Rattle.std.specs.Prelude.{◌≡◌, ◌≤◌, ◌<◌, ◌+◌, IsErrOf, length, true};
ghost use Rattle.draid_session.specs.State.{State};
ghost use Rattle.draid_uber.specs.Slots.{group_of};
ghost use Rattle.draid_uber.specs.Uber as ubers;
ghost use Rattle.draid_pool.specs.Drifts.{groups_number};
ghost use Rattle.draid_pool.specs.Grouping.{ClosesNext};
ghost use Rattle.draid_pool.specs.Rounds.{EachIs, NoneBeyond};
ghost use Rattle.draid_changes.specs.Switching.{AllSameArms, LeafIsIn};
ghost use Rattle.draid_lanes.specs.Governing.{KeepsLane, KeepsLayout, lane_last};
ghost use Rattle.draid_lanes.specs.Lanes.{IsSameLane, IsWholeLane};
ghost use Rattle.draid_lanes.specs.Locks.{owned_by};
ghost use Rattle.draid_lanes.specs.Traces.{LaneTold};
ghost use Rattle.draid_lanes.specs.Ubers.{IsLane, IsUberOf};
ghost use Rattle.draid_lanes.specs.Failing.{AreaFailedIn};
ghost use Rattle.draid_works.specs.Lanes.{LaneKnows, LaneKnowsLater};
ghost use Rattle.draid_works.specs.Switched.{SwitchedIn, SwitchesThrough};
ghost use Rattle.draid_works.specs.Told.{SwitchLane};

use draid_area::Area;
use draid_changes::{ArmFault, switch_leaf};
use draid_lanes::{Gate, Governs, Lane, Locked, UberCell, govern_in_lane};
use draid_pool::Metaslabs;
use draid_rack::Rack;
use draid_turn::{Pass, Turn};
use draid_uber::Uber;
use std::sync::Wait;
use std::thread;

/// Takes a leaf offline in so many metaslabs, or back online, or in none of them, and waits for the open writes that are in
/// the way. No metaslab is held while it waits.
fn switch_through<R: Rack, A: Area, M: Metaslabs<R, A>, W: Wait>(
    rt: &W,
    metaslabs: &mut M,
    uber: &mut Uber<A>,
    count: u32,
    leaf: u64,
    offline: bool,
) -> Result<(), ArmFault>
    requires fits { M.fits metaslabs.old }
    requires some { 0 < count }
    requires few { count ≤ 64 }
    requires own { M.owns metaslabs.old groups_number ≡ true }
    requires valid { ubers.Valid A.size uber.old }
    requires ready { EachIs count (ClosesNext R.Rack (group_of (ubers.kept_of uber.old) + 1)) (M.last metaslabs.old) }
    requires beyond { NoneBeyond count (M.last metaslabs.old) }
    requires alike { AllSameArms (M.last metaslabs.old) }
    ensures fits { M.fits metaslabs.new }
    ensures locks { M.locks metaslabs.new ≡ M.locks metaslabs.old }
    ensures owns { M.owns metaslabs.new ≡ M.owns metaslabs.old }
    ensures valid { ubers.Valid A.size uber.new }
    ensures ready { EachIs count (ClosesNext R.Rack (group_of (ubers.kept_of uber.new) + 1)) (M.last metaslabs.new) }
    ensures beyond { NoneBeyond count (M.last metaslabs.new) }
    ensures leaf { LeafIsIn count leaf offline result (M.last metaslabs.new) }
    ensures switches { SwitchesThrough R.Rack A.Area M.last M.went M.shared (M.owns metaslabs.old) count leaf offline metaslabs.old uber.old result metaslabs.new uber.new }
{
    for _ in rt.forever() {
        if let Some(result) = switch_leaf(metaslabs, uber, count, leaf, offline) {
            return result;
        }
        thread::yield_now();
    }
    unreachable!()
}

/// A leaf is taken offline by who holds the uberblock, or online, in all metaslabs or in none. It waits for open writes of
/// others that are in the way.
pub struct SwitchWork {
    pub leaf: u64,
    pub offline: bool,
    /// None before it was made.
    pub out: Option<Result<(), ArmFault>>,
}

impl<R: Rack, A: Area, G: Gate, W: Wait> Governs<R, A, G, W> for SwitchWork {
    ghost use Rattle.std.specs.Prelude.{⊤};
    ghost use Rattle.draid_works.specs.Switched.{SwitchesBy};

    ghost needs = { λ _ _. ⊤ };

    ghost relates = { λ o a u o' b v. SwitchesBy R.Rack A.Area o.leaf o.offline a u o'.out b v };

    fn govern<'a>(
        &mut self,
        metaslabs: &mut Locked<'a, R, A, G, W>,
        uber: &mut Uber<A>,
        count: u32,
    ) {
        let rt = metaslabs.rt;
        let came = switch_through(rt, metaslabs, uber, count, self.leaf, self.offline);
        self.out = Some(came);
    }
}

/// Takes a leaf offline in a lane's metaslabs, or back online: it waits for the uberblock, and holds it throughout.
fn switch_locked<'a, R: Rack, A: Area, G: Gate, W: Wait>(
    metaslabs: Locked<'a, R, A, G, W>,
    uber: &Turn<UberCell<'a, R, A>>,
    pass: &mut Pass<UberCell<'a, R, A>>,
    count: u32,
    leaf: u64,
    offline: bool,
) -> (Locked<'a, R, A, G, W>, Result<(), ArmFault>)
    requires own { pass.old.table ≡ uber.now.table }
    requires count { count ≡ length metaslabs.turns.now }
    requires lane { IsLane R.Rack metaslabs.turns.now metaslabs.passes.items }
    requires first { IsUberOf R.Rack A.Area uber.now.first.turns.now uber.now.first.uber uber.now.first.groups }
    requires turns { uber.now.first.turns.now ≡ metaslabs.turns.now }
    ensures turns { result.0.turns.now ≡ metaslabs.entry.turns.now }
    ensures owns { owned_by result.0.passes.items ≡ owned_by metaslabs.entry.passes.items }
    ensures lane { IsLane R.Rack result.0.turns.now result.0.passes.items }
    ensures layout { KeepsLayout (lane_last metaslabs.entry) (lane_last result.0) }
    ensures whole { KeepsLane R.Rack metaslabs.entry result.0 }
    ensures own { pass.new.table ≡ pass.old.table }
    ensures leaf { LeafIsIn count leaf offline result.1 (lane_last result.0) }
    ensures switches { SwitchedIn R.Rack A.Area leaf offline uber.now metaslabs.entry result.0 result.1 pass.old pass.new }
{
    let work = SwitchWork {
        leaf,
        offline,
        out: None,
    };
    let (metaslabs, work) = govern_in_lane(metaslabs, uber, pass, count, work);
    let SwitchWork {
        leaf: _,
        offline: _,
        out,
    } = work;
    (metaslabs, out.unwrap())
}

/// Takes a leaf offline in all metaslabs, or back online, or in none of them, and waits for open writes of other lanes that
/// are in its way.
pub fn switch_in_lane<'a, 'b, R: Rack, A: Area, G: Gate, W: Wait>(
    lane: Lane<'a, 'b, R, A, G, W>,
    leaf: u64,
    offline: bool,
) -> (Lane<'a, 'b, R, A, G, W>, Result<(), ArmFault>)
    requires whole { IsWholeLane R.Rack A.Area lane }
    ensures whole { IsWholeLane R.Rack A.Area result.0 }
    ensures same { IsSameLane lane.entry result.0 }
    ensures own { result.0.own ≡ lane.entry.own }
    ensures knows { (x : State) → LaneKnows R.Rack A.Area lane.entry x → LaneKnowsLater R.Rack A.Area result.0 x }
    ensures cause { IsErrOf result.1 ArmFault.Shelf → AreaFailedIn R.Rack A.Area lane.entry.uber.now lane.entry.metaslabs result.0.metaslabs lane.entry.pass result.0.pass }
    ensures told { (x : State) → x.geometry ≡ lane.entry.geometry → length x.metaslabs ≡ x.geometry.props.metaslabs → LaneTold R.Rack A.Area x (SwitchLane x leaf offline result.1) lane.entry result.0 }
    ensures leaf { LeafIsIn lane.entry.geometry.props.metaslabs leaf offline result.1 (lane_last result.0.metaslabs) }
    ensures switches { SwitchedIn R.Rack A.Area leaf offline lane.entry.uber.now lane.entry.metaslabs result.0.metaslabs result.1 lane.entry.pass result.0.pass }
{
    let Lane {
        geometry,
        metaslabs,
        uber,
        mut pass,
        own,
    } = lane;
    let count = metaslabs.turns.len() as u32;
    let (metaslabs, result) = switch_locked(metaslabs, uber, &mut pass, count, leaf, offline);
    let lane = Lane {
        geometry,
        metaslabs,
        uber,
        pass,
        own,
    };
    (lane, result)
}
