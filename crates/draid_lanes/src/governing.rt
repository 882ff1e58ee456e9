//! What a lane does while it holds the uberblock: it has the groups of all metaslabs then, and holds these one after another.
ghost use Rattle.std.specs.Prelude.{◌≡◌, ◌≤◌};
ghost use Rattle.draid_uber.specs.Uber.{count_of, point_of};
ghost use Rattle.draid_lanes.specs.Governing.{Governed, GovernedIn, KeepsLane, KeepsLayout, MayGovern, lane_last};
ghost use Rattle.draid_lanes.specs.Locks.{owned_by};
ghost use Rattle.draid_lanes.specs.Ubers.{IsLane, IsUberOf};

use crate::gate::Gate;
use crate::locked::Locked;
use crate::meeting::{meet_all, part_all};
use crate::uber::UberCell;
use draid_area::Area;
use draid_pool::Cell;
use draid_rack::Rack;
use draid_turn::{Act, Pass, Turn};
use draid_uber::Uber;
use std::sync::Wait;

/// What is done to a lane's metaslabs by who holds the uberblock.
pub trait Governs<R: Rack, A: Area, G: Gate, W: Wait> {
    ghost use Rattle.std.specs.Prelude.{◌≡◌, ◌≤◌};
    ghost use Rattle.draid_uber.specs.Uber.{count_of, point_of};
    ghost use Rattle.draid_uber.specs.declared.uber.Uber.{Uber};
    ghost use Rattle.draid_lanes.specs.Governing.{IsGovernor, KeepsLayout, KeepsSome, lane_last};
    ghost use Rattle.draid_lanes.specs.Locks.{owned_by};
    ghost use Rattle.draid_lanes.specs.declared.locked.Locked.{Locked};

    /// What it needs of the metaslabs, as they are met.
    ghost needs: { Self → Locked R A G W → Type 0 };

    /// What became of it, of the metaslabs and of the uberblock.
    ghost relates: { Self → Locked R A G W → Uber A → Self → Locked R A G W → Uber A → Type 0 };

    /// Does it to so many metaslabs.
    fn govern<'a>(&mut self, metaslabs: &mut Locked<'a, R, A, G, W>, uber: &mut Uber<A>, count: u32)
        requires governor { IsGovernor R.Rack A.Area count metaslabs.old.turns.now metaslabs.old.passes.items uber.old }
        requires needs { needs self.old metaslabs.old }
        ensures governor { IsGovernor R.Rack A.Area count metaslabs.new.turns.now metaslabs.new.passes.items uber.new }
        ensures turns { metaslabs.new.turns.now ≡ metaslabs.old.turns.now }
        ensures owns { owned_by metaslabs.new.passes.items ≡ owned_by metaslabs.old.passes.items }
        ensures layout { KeepsLayout (lane_last metaslabs.old) (lane_last metaslabs.new) }
        ensures keeps { KeepsSome R.Rack (owned_by metaslabs.old.passes.items) (lane_last metaslabs.old) (lane_last metaslabs.new) }
        ensures later { count_of A.faults uber.old ≤ count_of A.faults uber.new }
        ensures point { point_of uber.new ≡ point_of uber.old }
        ensures related { relates self.old metaslabs.old uber.old self.new metaslabs.new uber.new };
}

/// Takes the groups in, does it, and gives them up again.
fn govern_under<'a, R: Rack, A: Area, G: Gate, W: Wait, O: Governs<R, A, G, W>>(
    metaslabs: &mut Locked<'a, R, A, G, W>,
    uber: &mut Uber<A>,
    groups: &mut Vec<Pass<Cell<R, A>>>,
    op: &mut O,
    count: u32,
)
    requires may { MayGovern R.Rack A.Area O.needs count metaslabs.old op.old }
    requires uber { IsUberOf R.Rack A.Area metaslabs.old.turns.now uber.old groups.old }
    ensures turns { metaslabs.new.turns.now ≡ metaslabs.old.turns.now }
    ensures owns { owned_by metaslabs.new.passes.items ≡ owned_by metaslabs.old.passes.items }
    ensures lane { IsLane R.Rack metaslabs.new.turns.now metaslabs.new.passes.items }
    ensures uber { IsUberOf R.Rack A.Area metaslabs.new.turns.now uber.new groups.new }
    ensures later { count_of A.faults uber.old ≤ count_of A.faults uber.new }
    ensures point { point_of uber.new ≡ point_of uber.old }
    ensures layout { KeepsLayout (lane_last metaslabs.old) (lane_last metaslabs.new) }
    ensures whole { KeepsLane R.Rack metaslabs.old metaslabs.new }
    ensures governed { Governed R.Rack A.Area O.relates metaslabs.old op.old uber.old groups.old.items metaslabs.new op.new uber.new groups.new.items }
{
    meet_all(metaslabs.rt, metaslabs.turns, &mut metaslabs.passes, groups);
    op.govern(metaslabs, uber, count);
    part_all(metaslabs.turns, &mut metaslabs.passes, groups);
}

/// It is done in the uberblock's turn.
pub(crate) struct GovernOp<'a, R: Rack, A: Area, G: Gate, W: Wait, O> {
    pub metaslabs: Locked<'a, R, A, G, W>,
    pub op: O,
    pub count: u32,
}

impl<'a, R: Rack, A: Area, G: Gate, W: Wait, O: Governs<R, A, G, W>> Act<UberCell<'a, R, A>>
    for GovernOp<'a, R, A, G, W, O> {
    ghost use Rattle.std.specs.Prelude.{◌≡◌, None};
    ghost use Rattle.draid_lanes.specs.Governing.{HasGoverned, MayGovern};
    ghost use Rattle.draid_lanes.specs.Ubers.{IsUberOf};

    ghost needs = { λ o u. MayGovern R.Rack A.Area O.needs o.count o.metaslabs o.op × (u.turns.now ≡ o.metaslabs.turns.now) × IsUberOf R.Rack A.Area u.turns.now u.uber u.groups };

    ghost relates = { λ o u o' u'. HasGoverned R.Rack A.Area O.relates o.metaslabs o.op u o'.metaslabs o'.op u' };

    ghost concerns = { λ _. None };

    fn concerned(&self) -> Option<u64> {
        None
    }

    fn act(&mut self, cell: &mut UberCell<'a, R, A>) {
        govern_under(
            &mut self.metaslabs,
            &mut cell.uber,
            &mut cell.groups,
            &mut self.op,
            self.count,
        );
    }
}

/// Does it to a lane's metaslabs: it waits for the uberblock, and holds it throughout. What the lane knows of its own it knows
/// behind it.
pub fn govern_in_lane<'a, R: Rack, A: Area, G: Gate, W: Wait, O: Governs<R, A, G, W>>(
    metaslabs: Locked<'a, R, A, G, W>,
    uber: &Turn<UberCell<'a, R, A>>,
    pass: &mut Pass<UberCell<'a, R, A>>,
    count: u32,
    op: O,
) -> (Locked<'a, R, A, G, W>, O)
    requires own { pass.old.table ≡ uber.now.table }
    requires may { MayGovern R.Rack A.Area O.needs count metaslabs op }
    requires first { IsUberOf R.Rack A.Area uber.now.first.turns.now uber.now.first.uber uber.now.first.groups }
    requires turns { uber.now.first.turns.now ≡ metaslabs.turns.now }
    ensures turns { result.0.turns.now ≡ metaslabs.entry.turns.now }
    ensures owns { owned_by result.0.passes.items ≡ owned_by metaslabs.entry.passes.items }
    ensures lane { IsLane R.Rack result.0.turns.now result.0.passes.items }
    ensures layout { KeepsLayout (lane_last metaslabs.entry) (lane_last result.0) }
    ensures whole { KeepsLane R.Rack metaslabs.entry result.0 }
    ensures own { pass.new.table ≡ pass.old.table }
    ensures governed { GovernedIn R.Rack A.Area O.relates uber.now metaslabs.entry op result.0 result.1 pass.old pass.new }
{
    let rt = metaslabs.rt;
    let mut held = GovernOp {
        metaslabs,
        op,
        count,
    };
    uber.call(rt, pass, &mut held);
    let GovernOp {
        metaslabs,
        op,
        count: _,
    } = held;
    (metaslabs, op)
}
