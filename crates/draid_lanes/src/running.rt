//! Jobs over lanes of metaslabs, whatever these and the uberblock's lock are borrowed for.
ghost use Rattle.std.specs.Prelude.{◌≡◌, All, length};
ghost use Rattle.draid_lanes.specs.Jobs.{EachHasRun, MayRun};

use crate::gate::Gate;
use crate::jobs::{Job, Seat, run_lanes};
use crate::lane::Lane;
use draid_area::Area;
use draid_rack::Rack;
use std::sync::Wait;
use std::thread::Threads;

/// What is done in a lane of metaslabs. The lane is handed over in a place from which it is taken, and into which it is put back.
pub trait LaneJob<R: Rack, A: Area, G: Gate, W: Wait> {
    ghost use Rattle.std.specs.Prelude.{◌≡◌, IsSomeAnd, Some};
    ghost use Rattle.draid_lanes.specs.declared.lane.Lane.{Lane};

    /// What it needs of the lane.
    ghost needs: { Self → Lane R A G W → Type 0 };

    /// What became of it and of the lane.
    ghost relates: { Self → Lane R A G W → Self → Lane R A G W → Type 0 };

    fn run<'a, 'b>(&mut self, place: &mut Option<Lane<'a, 'b, R, A, G, W>>)
        requires needed { IsSomeAnd place.old (λ lane. needs self.old lane) }
        ensures related { (lane : Lane R A G W) → place.old ≡ Some lane → IsSomeAnd place.new (λ next. relates self.old lane self.new next) };
}

/// A lane's job, as `run_lanes` takes it.
#[derive(Drop)]
pub struct InLane<J> {
    pub job: J,
}

impl<'a, 'b, R: Rack, A: Area, G: Gate, W: Wait, J: LaneJob<R, A, G, W>> Job<
    Lane<'a, 'b, R, A, G, W>,
> for InLane<J> {
    ghost needs = { λ j lane. J.needs j.job lane };

    ghost relates = { λ j lane k next. J.relates j.job lane k.job next };

    fn run(&mut self, lane: Lane<'a, 'b, R, A, G, W>) -> Lane<'a, 'b, R, A, G, W> {
        let mut place = Some(lane);
        self.job.run(&mut place);
        place.unwrap()
    }
}

/// Runs the jobs of all lanes, each in a thread of its own where threads can be made.
pub fn run_jobs<
    'a,
    'b,
    R: Rack + Send,
    A: Area + Send,
    G: Gate + Sync,
    W: Threads + Wait + Sync,
    J: LaneJob<R, A, G, W> + Send,
>(rt: &W, seats: &mut [Seat<Lane<'a, 'b, R, A, G, W>, InLane<J>>])
    requires { All (MayRun (λ j lane. J.needs j.job lane)) seats.old }
    ensures count { length seats.new ≡ length seats.old }
    ensures ran { EachHasRun (λ j lane k next. J.relates j.job lane k.job next) seats.old seats.new }
{
    run_lanes(rt, seats);
}
