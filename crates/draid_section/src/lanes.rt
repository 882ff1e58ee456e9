//! A pool whose lanes run their jobs side by side, from a whole pool to a whole pool.
ghost use Rattle.std.specs.Prelude.{◌≡◌, ◌≤◌, IfErr, IfOk, length};
ghost use Rattle.draid_lanes.specs.Meeting.{groups_alone};
ghost use Rattle.draid_pool.specs.Whole.{IsWhole};
ghost use Rattle.draid_section.specs.Running.{KeepLanes};
ghost use Rattle.draid_tables.specs.Lists.{AreLaneLists};
ghost use Rattle.draid_pool.specs.Keeping.{SamePool};
ghost use Rattle.draid_section.specs.Section.{IsMadeOf, IsPlanned, MayRunAll, RunsInLanes, SameOwn};

use crate::locks::{Unlocked, lock_each, rooms};
use crate::section::{Behind, run_locked};
use draid_area::Area;
use draid_lanes::{Gate, LaneJob};
use draid_names::NoMemory;
use draid_pool::{Cell, GROUPS, Own, Owned, Pool};
use draid_rack::Rack;
use draid_shard::Shard;
use draid_spec::Geometry;
use draid_tables::{deal_owns, room_of, take_each};
use draid_turn::{Pass, Span};
use draid_uber::Uber;
use std::alloc::Global;
use std::sync::Wait;
use std::thread::Threads;

/// What is made before lanes run.
#[derive(Drop)]
struct Plan<R: Rack, A: Area> {
    /// Each lane's numbers, and behind them that of the groups.
    numbers: Vec<Vec<Span>>,
    rooms: Vec<Vec<Pass<Cell<R, A>>>>,
    owns: Vec<Own>,
}

/// The list of the groups' number.
fn groups_list(alloc: Global) -> Result<Vec<Span>, NoMemory>
    ensures { IfOk result (λ list. list.items ≡ groups_alone) }
{
    let mut list = Vec::with_capacity(alloc, 1)?;
    list.push_reserved(Span {
        first: GROUPS,
        last: GROUPS,
    });
    Ok(list)
}

/// Makes what lanes get beside locks, and room for what comes back of them.
fn make_plan<R: Rack, A: Area>(
    alloc: Global,
    own: &mut Own,
    metaslabs: usize,
    mut numbers: Vec<Vec<Span>>,
) -> Result<Plan<R, A>, NoMemory>
    requires few { metaslabs ≤ 64 }
    ensures same { SameOwn own.old own.new }
    ensures planned { IfOk result (λ it. IsPlanned own.old own.new numbers.items it.numbers.items metaslabs it.rooms.items it.owns.items) }
{
    let owns = deal_owns(alloc, own, &numbers)?;
    own.objects.reserve(room_of(&numbers, metaslabs))?;
    numbers.push(groups_list(alloc)?)?;
    let rooms = rooms(alloc, numbers.len(), metaslabs)?;
    Ok(Plan {
        numbers,
        rooms,
        owns,
    })
}

/// Runs lanes' jobs over a pool, each in a thread of its own where threads can be made. The lane at a place holds the numbers of the list there. Where memory is wanting no job is run, and
/// the pool is as it was; the jobs are gone then.
pub fn run_in_lanes<
    R: Rack + Send,
    A: Area + Send,
    G: Gate + Sync,
    W: Threads + Wait + Sync,
    J: LaneJob<R, A, G, W> + Send + Drop,
>(
    rt: &W,
    gate: &G,
    pool: Pool<R, A>,
    numbers: Vec<Vec<Span>>,
    jobs: Vec<J>,
) -> (Pool<R, A>, Result<Vec<J>, NoMemory>)
    requires whole { IsWhole R.Rack A.Area pool }
    requires lanes { AreLaneLists numbers.items }
    requires many { length jobs.items ≡ length numbers.items }
    requires few { length numbers.items ≤ 16 }
    requires may { MayRunAll R.Rack A.Area J.needs pool numbers.items jobs.items }
    requires keeps { KeepLanes R.Rack A.Area J.needs J.relates }
    ensures whole { IsWhole R.Rack A.Area result.0 }
    ensures ran { IfOk result.1 (λ done. RunsInLanes R.Rack A.Area J.relates pool numbers.items jobs result.0 done) }
    ensures refused { IfErr result.1 (λ _. SamePool pool result.0) }
{
    let Pool {
        geometry,
        metaslabs,
        uber,
        mut own,
        alloc,
    } = pool;
    let Owned { shards } = metaslabs;
    let Ok(plan) = make_plan(alloc, &mut own, shards.len(), numbers) else {
        return (pool_of(geometry, shards, uber, own, alloc), Err(NoMemory));
    };
    let made = match lock_each(rt, alloc, shards) {
        Ok(made) => made,
        Err(left) => {
            let Unlocked { shards } = left;
            return (pool_of(geometry, shards, uber, own, alloc), Err(NoMemory));
        }
    };
    let Plan {
        numbers,
        rooms,
        owns,
    } = plan;
    let behind = run_locked(
        rt, alloc, gate, geometry, uber, made, &numbers, rooms, owns, jobs,
    );
    let Behind {
        uber,
        shards,
        owns,
        jobs,
        ran,
    } = behind;
    match ran {
        Ok(()) => {
            take_each(&mut own, &numbers[..owns.len()], &owns);
            (pool_of(geometry, shards, uber, own, alloc), Ok(jobs))
        }
        Err(NoMemory) => (pool_of(geometry, shards, uber, own, alloc), Err(NoMemory)),
    }
}

/// A pool of these parts.
fn pool_of<R: Rack, A: Area>(
    geometry: Geometry,
    shards: Vec<Shard<R, A>>,
    uber: Uber<A>,
    own: Own,
    alloc: Global,
) -> Pool<R, A>
    ensures { IsMadeOf geometry shards uber own result }
{
    Pool {
        geometry,
        metaslabs: Owned { shards },
        uber,
        own,
        alloc,
    }
}
