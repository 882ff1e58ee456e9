//! Lanes that take their seats with what is each one's share, run their jobs and rise again.
ghost use Rattle.std.specs.Prelude.{◌≡◌, ◌≤◌, [], IfErr, IfOk, length, vec_capacity};
ghost use Rattle.draid_section.specs.Running.{AreEven, JobsRan, KeepLanes, MayRunEach};
ghost use Rattle.draid_section.specs.Seating.{AreAt, AreSeated, AreTaken, HaveRoomForLanes};

use draid_area::Area;
use draid_lanes::{Gate, InLane, Lane, LaneJob, Locked, Seat, UberCell, run_jobs};
use draid_names::NoMemory;
use draid_pool::{Cell, Own};
use draid_rack::Rack;
use draid_spec::Geometry;
use draid_turn::{Pass, Turn};
use std::alloc::Global;
use std::sync::Wait;
use std::thread::Threads;

/// What lanes have of their own: at the place of each its passes of the metaslabs, what it has of its own objects, and its job.
#[derive(Drop)]
pub struct Shares<R: Rack, A: Area, J> {
    pub passes: Vec<Vec<Pass<Cell<R, A>>>>,
    pub owns: Vec<Own>,
    pub jobs: Vec<J>,
}

/// Gives each lane a seat, the last one first.
fn seat_each<'a, 'b, R: Rack, A: Area, G: Gate, W: Wait, J: Drop>(
    rt: &'a W,
    gate: &'a G,
    geometry: Geometry,
    turns: &'a [Turn<Cell<R, A>>],
    uber: &'b Turn<UberCell<'a, R, A>>,
    passes: &mut Vec<Pass<UberCell<'a, R, A>>>,
    shares: &mut Shares<R, A, J>,
    mut seats: Vec<Seat<Lane<'a, 'b, R, A, G, W>, InLane<J>>>,
) -> Vec<Seat<Lane<'a, 'b, R, A, G, W>, InLane<J>>>
    requires even { AreEven shares.old passes.old.items }
    requires few { length shares.old.passes.items ≤ 16 }
    requires none { seats.items ≡ [] }
    requires room { length shares.old.passes.items ≤ vec_capacity seats }
    ensures seated { AreSeated shares.old passes.old.items result.items }
    ensures at { AreAt turns.now uber.now geometry result.items }
    ensures room { HaveRoomForLanes (length shares.old.passes.items) shares.new passes.new }
    ensures capacity { vec_capacity shares.new.passes ≡ vec_capacity shares.old.passes }
{
    'lanes: while let Some(held) = shares.passes.pop() {
        let own = shares.owns.pop().unwrap();
        let job = shares.jobs.pop().unwrap();
        let pass = passes.pop().unwrap();
        let metaslabs = Locked {
            rt,
            gate,
            lane: shares.passes.len() as u32,
            calls: 0,
            turns,
            passes: held,
        };
        let lane = Lane {
            geometry,
            metaslabs,
            uber,
            pass,
            own,
        };
        seats.push_reserved(Seat {
            lane: Some(lane),
            job: InLane { job },
        });
    }
    seats
}

/// Lanes rise, the first one first.
fn rise_each<'a, 'b, R: Rack, A: Area, G: Gate, W: Wait, J: Drop>(
    mut seats: Vec<Seat<Lane<'a, 'b, R, A, G, W>, InLane<J>>>,
    passes: &mut Vec<Pass<UberCell<'a, R, A>>>,
    shares: &mut Shares<R, A, J>,
)
    requires taken { AreTaken seats.items }
    requires room { HaveRoomForLanes (length seats.items) shares.old passes.old }
    ensures even { AreEven shares.new passes.new.items }
    ensures seated { AreSeated shares.new passes.new.items seats.entry.items }
    ensures capacity { vec_capacity shares.new.passes ≡ vec_capacity shares.old.passes }
{
    'seats: while let Some(seat) = seats.pop() {
        let Seat { lane, job } = seat;
        let Lane {
            geometry: _,
            metaslabs,
            uber: _,
            pass,
            own,
        } = lane.unwrap();
        shares.passes.push_reserved(metaslabs.passes);
        shares.owns.push_reserved(own);
        shares.jobs.push_reserved(job.job);
        passes.push_reserved(pass);
    }
}

/// Runs the jobs of all lanes over these locks, each in a thread of its own where threads can be made. Where memory is wanting
/// none is run.
pub(crate) fn run_seated<
    'a,
    'b,
    R: Rack + Send,
    A: Area + Send,
    G: Gate + Sync,
    W: Threads + Wait + Sync,
    J: LaneJob<R, A, G, W> + Send + Drop,
>(
    rt: &'a W,
    alloc: Global,
    gate: &'a G,
    geometry: Geometry,
    turns: &'a [Turn<Cell<R, A>>],
    uber: &'b Turn<UberCell<'a, R, A>>,
    passes: &mut Vec<Pass<UberCell<'a, R, A>>>,
    shares: &mut Shares<R, A, J>,
) -> Result<(), NoMemory>
    requires even { AreEven shares.old passes.old.items }
    requires few { length shares.old.passes.items ≤ 16 }
    requires may { MayRunEach J.needs turns.now uber.now geometry shares.old passes.old.items }
    ensures ran { IfOk result (λ _. JobsRan J.relates turns.now uber.now geometry shares.old shares.new passes.old.items passes.new.items) }
    ensures refused { IfErr result (λ _. (shares.new ≡ shares.old) × (passes.new ≡ passes.old)) }
    ensures capacity { vec_capacity shares.new.passes ≡ vec_capacity shares.old.passes }
{
    let Ok(seats) = Vec::with_capacity(alloc, shares.passes.len()) else {
        return Err(NoMemory);
    };
    let mut seats = seat_each(rt, gate, geometry, turns, uber, passes, shares, seats);
    run_jobs(rt, &mut seats);
    rise_each(seats, passes, shares);
    Ok(())
}
