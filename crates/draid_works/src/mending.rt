//! A rebuild or a scrub in a lane: it holds the uberblock throughout, and the metaslabs one after another.
ghost use Rattle.std.specs.Prelude.{◌≡◌, ℕ, IfOk, IsErrOf, OnOk, Option, length, true};
ghost use Rattle.draid_names.specs.declared.pass_kind.PassKind.TheVariants.{Heal, Rebuild};
ghost use Rattle.draid_session.specs.Replies.{IsWithin};
ghost use Rattle.draid_session.specs.State.{State};
ghost use Rattle.draid_shard.specs.Fits.{Valid};
ghost use Rattle.draid_spec.specs.Geometry.{IsGeometry};
ghost use Rattle.draid_pool.specs.Drifts.{groups_number, passes_number};
ghost use Rattle.draid_pool.specs.Rounds.{EachIs, NoneBeyond};
ghost use Rattle.draid_pool.specs.Threads.{AllStay};
ghost use Rattle.draid_visits.specs.Visits.{AllOnly};
ghost use Rattle.draid_lanes.specs.Governing.{KeepsLane, KeepsLayout, lane_last};
ghost use Rattle.draid_lanes.specs.Lanes.{IsSameLane, IsWholeLane};
ghost use Rattle.draid_lanes.specs.Locks.{owned_by};
ghost use Rattle.draid_lanes.specs.Traces.{LaneTold, SawBytes};
ghost use Rattle.draid_lanes.specs.Ubers.{IsLane, IsUberOf};
ghost use Rattle.draid_lanes.specs.Failing.{AreaFailedIn};
ghost use Rattle.draid_works.specs.Lanes.{LaneKnows, LaneKnowsLater};
ghost use Rattle.draid_works.specs.Mended.{BeginsMend, MayMend, MayMendLane, MendedIn, MendsThrough};
ghost use Rattle.draid_works.specs.Told.{MendLane};

use draid_area::Area;
use draid_lanes::{Gate, Governs, Lane, Locked, UberCell, govern_in_lane, sync_through};
use draid_names::PassKind;
use draid_pool::{Metaslabs, SyncFault, Synced};
use draid_rack::Rack;
use draid_spec::Geometry;
use draid_turn::{Pass, Turn};
use draid_uber::Uber;
use draid_visits::{MendFault, Mended, Mending, Syncs, begin_rebuild, begin_scrub, go_on};
use std::sync::Wait;

/// Begins a rebuild or a scrub: finds which metaslabs of a layout it is to visit.
fn begin_mend<R: Rack, A: Area, M: Metaslabs<R, A>>(
    metaslabs: &mut M,
    geometry: &Geometry,
    kind: PassKind,
    limit: Option<u64>,
) -> Result<Mending, MendFault>
    requires fits { M.fits metaslabs.old }
    requires geometry_is { IsGeometry geometry.now }
    requires passes { M.owns metaslabs.old passes_number ≡ true }
    requires valid { EachIs geometry.now.props.metaslabs (Valid R.Rack) (M.last metaslabs.old) }
    requires beyond { NoneBeyond geometry.now.props.metaslabs (M.last metaslabs.old) }
    ensures fits { M.fits metaslabs.new }
    ensures locks { M.locks metaslabs.new ≡ M.locks metaslabs.old }
    ensures owns { M.owns metaslabs.new ≡ M.owns metaslabs.old }
    ensures stay { AllStay (M.owns metaslabs.old) (M.last metaslabs.old) (M.last metaslabs.new) }
    ensures valid { EachIs geometry.now.props.metaslabs (Valid R.Rack) (M.last metaslabs.new) }
    ensures alone { OnOk result (AllOnly kind (M.last metaslabs.new)) }
    ensures long { IfOk result (λ it. length it.marks ≡ 64) }
    ensures begins { BeginsMend R.Rack A.Area M.last M.went M.shared (M.owns metaslabs.old) geometry.now kind limit metaslabs.old result metaslabs.new }
{
    let count = geometry.props.metaslabs;
    match kind {
        PassKind::Rebuild => begin_rebuild(metaslabs, count, limit),
        PassKind::Heal => begin_scrub(metaslabs, count, limit),
    }
}

/// Groups of metaslabs that others hold too: a sync waits for the open writes that are in its way.
#[derive(Drop)]
pub struct Waiting<'a, W> {
    pub rt: &'a W,
}

impl<'a, R: Rack, A: Area, M: Metaslabs<R, A>, W: Wait> Syncs<R, A, M> for Waiting<'a, W> {
    ghost use Rattle.draid_works.specs.Mended.{SyncsWaiting};

    ghost relates = { λ owns count a u out b v. SyncsWaiting R.Rack A.Area M.last M.went M.shared owns count a u out b v };

    fn sync(
        &self,
        metaslabs: &mut M,
        uber: &mut Uber<A>,
        count: u32,
    ) -> Option<Result<Synced, SyncFault>> {
        Some(sync_through(self.rt, metaslabs, uber, count))
    }
}

/// Rebuilds or scrubs the metaslabs of a layout, by a thread that alone changes their groups and passes. Its syncs wait for the
/// open writes that are in their way.
fn mend_through<R: Rack, A: Area, M: Metaslabs<R, A>, W: Wait>(
    rt: &W,
    metaslabs: &mut M,
    uber: &mut Uber<A>,
    geometry: &Geometry,
    kind: PassKind,
    limit: Option<u64>,
) -> Result<Mended, MendFault>
    requires fits { M.fits metaslabs.old }
    requires own { M.owns metaslabs.old groups_number ≡ true }
    requires passes { M.owns metaslabs.old passes_number ≡ true }
    requires may { MayMend R.Rack A.Area geometry.now (M.last metaslabs.old) uber.old }
    ensures fits { M.fits metaslabs.new }
    ensures locks { M.locks metaslabs.new ≡ M.locks metaslabs.old }
    ensures owns { M.owns metaslabs.new ≡ M.owns metaslabs.old }
    ensures may { MayMend R.Rack A.Area geometry.now (M.last metaslabs.new) uber.new }
    ensures within { IfOk result (λ it. IsWithin limit it.units it.paused) }
    ensures mends { MendsThrough R.Rack A.Area M.last M.went M.shared (M.owns metaslabs.old) geometry.now kind limit metaslabs.old uber.old result metaslabs.new uber.new }
{
    match begin_mend(metaslabs, geometry, kind, limit) {
        Ok(begun) => {
            let mut mending = begun;
            let waiting = Waiting { rt };
            match go_on(&waiting, metaslabs, uber, geometry, &mut mending) {
                Some(answer) => answer,
                None => unreachable!(),
            }
        }
        Err(fault) => Err(fault),
    }
}

/// A rebuild or a scrub by who holds the uberblock. It waits for open writes of others that are in the way.
pub struct MendWork {
    /// The layout of the metaslabs.
    pub geometry: Geometry,
    pub kind: PassKind,
    /// How many stripes or blocks it may lend.
    pub limit: Option<u64>,
    /// None before it was made.
    pub out: Option<Result<Mended, MendFault>>,
}

impl<R: Rack, A: Area, G: Gate, W: Wait> Governs<R, A, G, W> for MendWork {
    ghost use Rattle.draid_lanes.specs.Failing.{AreaFailedIn};
    ghost use Rattle.draid_works.specs.Lanes.{LaneKnows, LaneKnowsLater};
    ghost use Rattle.draid_works.specs.Mended.{MayMendLane, MendsLane};

    ghost needs = { λ o a. MayMendLane o.geometry a };

    ghost relates = { λ o a u o' b v. MendsLane R.Rack A.Area o.geometry o.kind o.limit a u o'.out b v };

    fn govern<'a>(
        &mut self,
        metaslabs: &mut Locked<'a, R, A, G, W>,
        uber: &mut Uber<A>,
        _count: u32,
    ) {
        let rt = metaslabs.rt;
        let came = mend_through(rt, metaslabs, uber, &self.geometry, self.kind, self.limit);
        self.out = Some(came);
    }
}

/// Rebuilds or scrubs a lane's metaslabs: it waits for the uberblock, and holds it throughout.
fn mend_locked<'a, R: Rack, A: Area, G: Gate, W: Wait>(
    metaslabs: Locked<'a, R, A, G, W>,
    uber: &Turn<UberCell<'a, R, A>>,
    pass: &mut Pass<UberCell<'a, R, A>>,
    geometry: Geometry,
    kind: PassKind,
    limit: Option<u64>,
) -> (Locked<'a, R, A, G, W>, Result<Mended, MendFault>)
    requires own { pass.old.table ≡ uber.now.table }
    requires may { MayMendLane geometry metaslabs }
    requires lane { IsLane R.Rack metaslabs.turns.now metaslabs.passes.items }
    requires first { IsUberOf R.Rack A.Area uber.now.first.turns.now uber.now.first.uber uber.now.first.groups }
    requires turns { uber.now.first.turns.now ≡ metaslabs.turns.now }
    ensures turns { result.0.turns.now ≡ metaslabs.entry.turns.now }
    ensures owns { owned_by result.0.passes.items ≡ owned_by metaslabs.entry.passes.items }
    ensures lane { IsLane R.Rack result.0.turns.now result.0.passes.items }
    ensures layout { KeepsLayout (lane_last metaslabs.entry) (lane_last result.0) }
    ensures whole { KeepsLane R.Rack metaslabs.entry result.0 }
    ensures own { pass.new.table ≡ pass.old.table }
    ensures within { IfOk result.1 (λ it. IsWithin limit it.units it.paused) }
    ensures mends { MendedIn R.Rack A.Area geometry kind limit uber.now metaslabs.entry result.0 result.1 pass.old pass.new }
{
    let count = metaslabs.turns.len() as u32;
    let work = MendWork {
        geometry,
        kind,
        limit,
        out: None,
    };
    let (metaslabs, work) = govern_in_lane(metaslabs, uber, pass, count, work);
    let MendWork {
        geometry: _,
        kind: _,
        limit: _,
        out,
    } = work;
    (metaslabs, out.unwrap())
}

/// Rebuilds or scrubs the metaslabs of a lane that alone changes their passes.
fn mend_in_lane<'a, 'b, R: Rack, A: Area, G: Gate, W: Wait>(
    lane: Lane<'a, 'b, R, A, G, W>,
    kind: PassKind,
    limit: Option<u64>,
) -> (Lane<'a, 'b, R, A, G, W>, Result<Mended, MendFault>)
    requires whole { IsWholeLane R.Rack A.Area lane }
    requires geometry { IsGeometry lane.geometry }
    requires passes { owned_by lane.metaslabs.passes.items passes_number ≡ true }
    ensures whole { IsWholeLane R.Rack A.Area result.0 }
    ensures same { IsSameLane lane.entry result.0 }
    ensures own { result.0.own ≡ lane.entry.own }
    ensures knows { (x : State) → LaneKnows R.Rack A.Area lane.entry x → LaneKnowsLater R.Rack A.Area result.0 x }
    ensures cause { IsErrOf result.1 MendFault.Shelf → AreaFailedIn R.Rack A.Area lane.entry.uber.now lane.entry.metaslabs result.0.metaslabs lane.entry.pass result.0.pass }
    ensures within { IfOk result.1 (λ it. IsWithin limit it.units it.paused) }
    ensures mends { MendedIn R.Rack A.Area lane.entry.geometry kind limit lane.entry.uber.now lane.entry.metaslabs result.0.metaslabs result.1 lane.entry.pass result.0.pass }
{
    let Lane {
        geometry,
        metaslabs,
        uber,
        mut pass,
        own,
    } = lane;
    let (metaslabs, result) = mend_locked(metaslabs, uber, &mut pass, geometry, kind, limit);
    let lane = Lane {
        geometry,
        metaslabs,
        uber,
        pass,
        own,
    };
    (lane, result)
}

/// Rebuilds the metaslabs that need it, one after another, and lends at most so many stripes. It waits for open writes of other
/// lanes that are in its way. The lane is the only one that changes passes.
pub fn rebuild_in_lane<'a, 'b, R: Rack, A: Area, G: Gate, W: Wait>(
    lane: Lane<'a, 'b, R, A, G, W>,
    limit: Option<u64>,
) -> (Lane<'a, 'b, R, A, G, W>, Result<Mended, MendFault>)
    requires whole { IsWholeLane R.Rack A.Area lane }
    requires geometry { IsGeometry lane.geometry }
    requires passes { owned_by lane.metaslabs.passes.items passes_number ≡ true }
    ensures whole { IsWholeLane R.Rack A.Area result.0 }
    ensures same { IsSameLane lane.entry result.0 }
    ensures own { result.0.own ≡ lane.entry.own }
    ensures knows { (x : State) → LaneKnows R.Rack A.Area lane.entry x → LaneKnowsLater R.Rack A.Area result.0 x }
    ensures cause { IsErrOf result.1 MendFault.Shelf → AreaFailedIn R.Rack A.Area lane.entry.uber.now lane.entry.metaslabs result.0.metaslabs lane.entry.pass result.0.pass }
    ensures within { IfOk result.1 (λ it. IsWithin limit it.units it.paused) }
    ensures told { (x : State) → x.geometry ≡ lane.entry.geometry → length x.metaslabs ≡ x.geometry.props.metaslabs → LaneTold R.Rack A.Area x (MendLane x Rebuild (SawBytes R.Rack A.Area x result.0) limit result.1) lane.entry result.0 }
    ensures mends { MendedIn R.Rack A.Area lane.entry.geometry Rebuild limit lane.entry.uber.now lane.entry.metaslabs result.0.metaslabs result.1 lane.entry.pass result.0.pass }
{
    mend_in_lane(lane, PassKind::Rebuild, limit)
}

/// Scrubs the metaslabs from the first that has a scrub on, or all, one after another, and lends at most so many blocks. The
/// lane is the only one that changes passes.
pub fn scrub_in_lane<'a, 'b, R: Rack, A: Area, G: Gate, W: Wait>(
    lane: Lane<'a, 'b, R, A, G, W>,
    limit: Option<u64>,
) -> (Lane<'a, 'b, R, A, G, W>, Result<Mended, MendFault>)
    requires whole { IsWholeLane R.Rack A.Area lane }
    requires geometry { IsGeometry lane.geometry }
    requires passes { owned_by lane.metaslabs.passes.items passes_number ≡ true }
    ensures whole { IsWholeLane R.Rack A.Area result.0 }
    ensures same { IsSameLane lane.entry result.0 }
    ensures own { result.0.own ≡ lane.entry.own }
    ensures knows { (x : State) → LaneKnows R.Rack A.Area lane.entry x → LaneKnowsLater R.Rack A.Area result.0 x }
    // There is something to do, and no group is committed for it.
    ensures some { IsErrOf result.1 MendFault.Nothing → ⊥ }
    ensures not_shelf { IsErrOf result.1 MendFault.Shelf → ⊥ }
    ensures within { IfOk result.1 (λ it. IsWithin limit it.units it.paused) }
    ensures told { (x : State) → x.geometry ≡ lane.entry.geometry → length x.metaslabs ≡ x.geometry.props.metaslabs → LaneTold R.Rack A.Area x (MendLane x Heal (SawBytes R.Rack A.Area x result.0) limit result.1) lane.entry result.0 }
    ensures mends { MendedIn R.Rack A.Area lane.entry.geometry Heal limit lane.entry.uber.now lane.entry.metaslabs result.0.metaslabs result.1 lane.entry.pass result.0.pass }
{
    mend_in_lane(lane, PassKind::Heal, limit)
}
