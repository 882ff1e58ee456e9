ghost use Rattle.std.specs.Prelude.{◌≡◌, ◌<◌, IfSome, length};
ghost use Rattle.draid_lanes.specs.Lanes.{IsWholeLane};
ghost use Rattle.draid_pool.specs.Looking.{HasMany};
ghost use Rattle.draid_pool.specs.Threads.{AllStay, KeepsWhole, all_of};
ghost use Rattle.draid_works.specs.Job.{LeavesWhole};

use crate::gates::TURNS;
use crate::lists::lists_of;
use crate::runs::printed;
use draid_area::Area;
use draid_export::reply_to_crash;
use draid_import::import;
use draid_lanes::{Gate, Lane, LaneJob, OpenGate};
use draid_pool::Metaslabs;
use draid_rack::Rack;
use draid_section::run_in_lanes;
use draid_shard::Shard;
use draid_shelf::{CrashRule, MemoryShelf};
use draid_turn::Act;
use std::alloc::Global;
use std::sync::Wait;
use std::sync::atomic::AtomicU64;
use std::sync::atomic::Ordering::SeqCst;
use std::thread;
use std::thread::Threads;

/// A hold of a metaslab in which one lane waits for another that is in a hold too.
#[derive(Drop)]
pub struct MeetOp<'c> {
    mine: &'c AtomicU64,
    other: &'c AtomicU64,
    met: bool,
}

impl<'c, R: Rack, A: Area> Act<Shard<R, A>> for MeetOp<'c> {
    ghost use Rattle.std.specs.Prelude.{◌≡◌, None};
    ghost use Rattle.draid_shard.specs.Fits.{Valid};

    ghost needs = { λ _ s. Valid R.Rack s };

    ghost relates = { λ _ s _ s'. s' ≡ s };

    ghost concerns = { λ _. None };

    fn concerned(&self) -> Option<u64> {
        None
    }

    fn act(&mut self, _shard: &mut Shard<R, A>) {
        self.mine.store(1, SeqCst);
        for _ in 0..TURNS {
            if self.other.load(SeqCst) == 1 {
                self.met = true;
                return;
            }
            thread::yield_now();
        }
    }
}

/// Waits in a hold of one of so many metaslabs.
fn meet_in<'c, R: Rack, A: Area, M: Metaslabs<R, A>>(
    metaslabs: &mut M,
    count: u32,
    metaslab: u32,
    op: MeetOp<'c>,
) -> MeetOp<'c>
    requires fits { M.fits metaslabs.old }
    requires inside { metaslab < count }
    requires many { HasMany R.Rack count (M.last metaslabs.old) }
    ensures fits { M.fits metaslabs.new }
    ensures locks { M.locks metaslabs.new ≡ M.locks metaslabs.old }
    ensures owns { M.owns metaslabs.new ≡ M.owns metaslabs.old }
    ensures stay { AllStay (M.owns metaslabs.old) (M.last metaslabs.old) (M.last metaslabs.new) }
    ensures whole { KeepsWhole R.Rack (M.owns metaslabs.old) (all_of (M.owns metaslabs.old)) (M.last metaslabs.old) (M.last metaslabs.new) }
{
    metaslabs.hold(metaslab, op)
}

/// A lane that waits in a hold of a metaslab for the other lane.
#[derive(Drop)]
struct Meeting<'c> {
    metaslab: u32,
    mine: &'c AtomicU64,
    other: &'c AtomicU64,
    met: bool,
}

/// Waits in a hold of a lane's metaslab, where the lane has it.
fn meet_in_lane<'a, 'b, 'c, R: Rack, A: Area, G: Gate, W: Wait>(
    job: &mut Meeting<'c>,
    mut lane: Lane<'a, 'b, R, A, G, W>,
) -> Lane<'a, 'b, R, A, G, W>
    requires whole { IsWholeLane R.Rack A.Area lane }
    ensures leaves { LeavesWhole R.Rack A.Area lane.entry result }
{
    let count = lane.geometry.props.metaslabs;
    if job.metaslab >= count {
        return lane;
    }
    let op = MeetOp {
        mine: job.mine,
        other: job.other,
        met: false,
    };
    let op = meet_in(&mut lane.metaslabs, count, job.metaslab, op);
    job.met = op.met;
    lane
}

impl<'c, R: Rack, A: Area, G: Gate, W: Wait> LaneJob<R, A, G, W> for Meeting<'c> {
    ghost use Rattle.std.specs.Prelude.{◌≡◌, IsSomeAnd, Some};
    ghost use Rattle.draid_lanes.specs.Lanes.{IsWholeLane};
    ghost use Rattle.draid_lanes.specs.declared.lane.Lane.{Lane};
    ghost use Rattle.draid_works.specs.Job.{LeavesWhole};

    ghost needs = { λ _ lane. IsWholeLane R.Rack A.Area lane };

    ghost relates = { λ _ old _ new. LeavesWhole R.Rack A.Area old new };

    fn run<'a, 'b>(&mut self, place: &mut Option<Lane<'a, 'b, R, A, G, W>>)
        requires needed { IsSomeAnd place.old (λ lane. IsWholeLane R.Rack A.Area lane) }
        ensures related { (lane : Lane R A G W) → place.old ≡ Some lane → IsSomeAnd place.new (λ next. LeavesWhole R.Rack A.Area lane next) }
    {
        let Some(lane) = place.take() else {
            unreachable!()
        };
        let lane = meet_in_lane(self, lane);
        *place = Some(lane);
    }
}

/// The jobs of two lanes, the one in the first metaslab and the other in the second.
fn meetings<'c>(
    alloc: Global,
    first: &'c AtomicU64,
    second: &'c AtomicU64,
) -> Option<Vec<Meeting<'c>>>
    ensures { IfSome result (λ jobs. length jobs.items ≡ 2) }
{
    let mut jobs = Vec::with_capacity(alloc, 2).ok()?;
    jobs.push_reserved(Meeting {
        metaslab: 0,
        mine: first,
        other: second,
        met: false,
    });
    jobs.push_reserved(Meeting {
        metaslab: 1,
        mine: second,
        other: first,
        met: false,
    });
    Some(jobs)
}

/// Whether two lanes are in holds of two metaslabs at once.
fn lanes_meet<W: AllocGlobal + Threads + Wait + Sync>(
    rt: &W,
    shelf: &mut MemoryShelf,
) -> Option<bool> {
    printed(
        rt,
        shelf,
        "create draid1:2d:3c:0s 3 sector=512 height=8 metaslabs=2 slices=4\n",
    )?;
    let Ok(pool) = import(rt.alloc(), shelf) else {
        return None;
    };
    let Ok(numbers) = lists_of(rt.alloc(), 2) else {
        return None;
    };
    let first = AtomicU64::new(0);
    let second = AtomicU64::new(0);
    let jobs = meetings(rt.alloc(), &first, &second)?;
    if let Some(_) = pool.uber.point().group() {
        return None;
    }
    let (pool, ran) = run_in_lanes(rt, &OpenGate, pool, numbers, jobs);
    reply_to_crash(shelf, pool);
    Some(ran.ok()?.iter().all(|job| job.met))
}

#[test]
fn each_metaslab_has_a_lock(rt: HostRuntime) {
    let mut shelf = MemoryShelf::new(rt.alloc(), CrashRule::Old);
    assert!(rt; lanes_meet(&rt, &mut shelf) == Some(true));
}
