//! Jobs in threads, each with a lane of its own.
ghost use Rattle.std.specs.Prelude.{◌≡◌, All, length};
ghost use Rattle.draid_lanes.specs.Jobs.{EachHasRun, HasRun, MayRun};

use std::sync::Wait;
use std::thread;
use std::thread::Threads;

/// What is done in a lane.
pub trait Job<L> {
    /// What it needs of the lane.
    ghost needs: { Self → L → Type 0 };

    /// What became of it and of the lane.
    ghost relates: { Self → L → Self → L → Type 0 };

    fn run(&mut self, lane: L) -> L
        requires needed { needs self.old lane }
        ensures related { relates self.old lane self.new result };
}

/// A lane, while its job isn't run, and the job.
#[derive(Drop)]
pub struct Seat<L, J> {
    pub lane: Option<L>,
    pub job: J,
}

/// Runs the job of one lane.
fn run_lane<L: Drop, J: Job<L>>(seat: &mut Seat<L, J>)
    requires { MayRun J.needs seat.old }
    ensures { HasRun J.relates seat.old seat.new }
{
    if let Some(lane) = seat.lane.take() {
        let lane = seat.job.run(lane);
        seat.lane = Some(lane);
    }
}

/// Runs the jobs of all lanes, each in a thread of its own where threads can be made.
pub fn run_lanes<L: Drop + Send, J: Job<L> + Send, W: Threads + Wait + Sync>(
    rt: &W,
    seats: &mut [Seat<L, J>],
)
    requires { All (MayRun J.needs) seats.old }
    ensures count { length seats.new ≡ length seats.old }
    ensures ran { EachHasRun J.relates seats.old seats.new }
{
    let count = seats.len();
    if count == 0 {
        return;
    }
    thread::for_each_mut(
        rt,
        seats,
        count,
        &|_, seat: &mut Seat<L, J>| {
            run_lane(seat);
        },
    );
}
