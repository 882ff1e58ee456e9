//! A section: a pool is put under locks, lanes run their jobs over these, and the pool is put together again.
ghost use Rattle.std.specs.Prelude.{◌≡◌, ◌+◌, ◌≤◌, [], ℕ, IfErr, IfOk, length, vec_capacity};
ghost use Rattle.draid_turn.specs.Calls.{newcomer};
ghost use Rattle.draid_turn.specs.Lists.{one_if};
ghost use Rattle.draid_turn.specs.Numbers.{all_numbers, holds};
ghost use Rattle.draid_holds.specs.Passes.{EachHoldsSome, KeepsOne, shares};
ghost use Rattle.draid_lanes.specs.Ubers.{IsUberOf};
ghost use Rattle.draid_section.specs.Opening.{AreFirst, AreRooms, shards_under};
ghost use Rattle.draid_section.specs.Running.{AreAlike, KeepLanes};
ghost use Rattle.draid_section.specs.Section.{EndWithGroups, GovernsFirst, MayRunLocked, MayRunOver, MayRunUnder, RunsLocked, RunsOver, RunsUnder};

use crate::locks::{Locks, deal_each, unlock_each};
use crate::seats::{Shares, run_seated};
use crate::turning::{UberLock, UberUnlocked, lock_uber, split_uber, unlock_uber};
use draid_area::Area;
use draid_lanes::{Gate, LaneJob, UberCell};
use draid_names::NoMemory;
use draid_pool::{Cell, Own};
use draid_rack::Rack;
use draid_shard::Shard;
use draid_spec::Geometry;
use draid_turn::{Pass, Span, Turn};
use draid_uber::Uber;
use std::alloc::Global;
use std::sync::Wait;
use std::thread::Threads;

/// Runs the jobs of all lanes over these locks, gives each a pass of the uberblock's lock, and takes the uberblock out of it behind
/// them. Where memory is wanting none is run.
fn run_over<
    'a,
    R: Rack + Send,
    A: Area + Send,
    G: Gate + Sync,
    W: Threads + Wait + Sync,
    J: LaneJob<R, A, G, W> + Send + Drop,
>(
    rt: &'a W,
    alloc: Global,
    gate: &'a G,
    geometry: Geometry,
    turns: &'a [Turn<Cell<R, A>>],
    made: UberLock<'a, R, A>,
    passes: Vec<Pass<UberCell<'a, R, A>>>,
    shares: &mut Shares<R, A, J>,
) -> (Uber<A>, Vec<Pass<Cell<R, A>>>, Result<(), NoMemory>)
    requires first { made.first ≡ newcomer made.turn.table [] all_numbers }
    requires turns { made.turn.first.turns.now ≡ turns.now }
    requires uber { IsUberOf R.Rack A.Area made.turn.first.turns.now made.turn.first.uber made.turn.first.groups }
    requires alike { AreAlike shares.old }
    requires few { length shares.old.passes.items ≤ 16 }
    requires none { passes.items ≡ [] }
    requires room { length shares.old.passes.items ≤ vec_capacity passes }
    requires may { MayRunOver R.Rack A.Area J.needs geometry turns.now made.turn shares.old }
    requires keeps { KeepLanes R.Rack A.Area J.needs J.relates }
    ensures ran { IfOk result.2 (λ _. RunsOver R.Rack A.Area J.relates geometry turns.now made.entry.turn shares.old shares.new result.0 result.1) }
    ensures refused { IfErr result.2 (λ _. (shares.new ≡ shares.old) × (result.0 ≡ made.entry.turn.first.uber) × (result.1 ≡ made.entry.turn.first.groups)) }
    ensures room { vec_capacity shares.new.passes ≡ vec_capacity shares.old.passes }
{
    let UberLock { turn, mut first } = made;
    let count = shares.passes.len() as u32;
    let mut passes = split_uber(&turn, &mut first, count, passes);
    let ran = run_seated(rt, alloc, gate, geometry, turns, &turn, &mut passes, shares);
    let (uber, groups) = unlock_uber(rt, turn, first, passes);
    (uber, groups, ran)
}

/// Puts the uberblock under a lock, with the passes of the groups, and runs the jobs of all lanes. Where memory is wanting none
/// is run.
fn run_under<
    R: Rack + Send,
    A: Area + Send,
    G: Gate + Sync,
    W: Threads + Wait + Sync,
    J: LaneJob<R, A, G, W> + Send + Drop,
>(
    rt: &W,
    alloc: Global,
    gate: &G,
    geometry: Geometry,
    turns: &[Turn<Cell<R, A>>],
    uber: Uber<A>,
    groups: Vec<Pass<Cell<R, A>>>,
    shares: &mut Shares<R, A, J>,
) -> (Uber<A>, Vec<Pass<Cell<R, A>>>, Result<(), NoMemory>)
    requires uber { IsUberOf R.Rack A.Area turns.now uber groups }
    requires alike { AreAlike shares.old }
    requires few { length shares.old.passes.items ≤ 16 }
    requires may { MayRunUnder R.Rack A.Area J.needs geometry turns.now uber groups shares.old }
    requires keeps { KeepLanes R.Rack A.Area J.needs J.relates }
    ensures ran { IfOk result.2 (λ _. RunsUnder R.Rack A.Area J.relates geometry turns.now uber groups shares.old shares.new result.0 result.1) }
    ensures refused { IfErr result.2 (λ _. (shares.new ≡ shares.old) × (result.0 ≡ uber) × (result.1 ≡ groups)) }
    ensures room { vec_capacity shares.new.passes ≡ vec_capacity shares.old.passes }
{
    let Ok(passes) = Vec::with_capacity(alloc, shares.passes.len()) else {
        return (uber, groups, Err(NoMemory));
    };
    match lock_uber(alloc, uber, turns, groups) {
        Ok(made) => run_over(rt, alloc, gate, geometry, turns, made, passes, shares),
        Err(left) => {
            let UberUnlocked { uber, groups } = left;
            (uber, groups, Err(NoMemory))
        }
    }
}

/// What comes back of a section.
#[derive(Drop)]
pub(crate) struct Behind<R: Rack, A: Area, J> {
    pub uber: Uber<A>,
    pub shards: Vec<Shard<R, A>>,
    pub owns: Vec<Own>,
    pub jobs: Vec<J>,
    /// Whether the jobs were run.
    pub ran: Result<(), NoMemory>,
}

/// Runs the jobs of all lanes over metaslabs that were put under locks, and takes these out again.
pub(crate) fn run_locked<
    R: Rack + Send,
    A: Area + Send,
    G: Gate + Sync,
    W: Threads + Wait + Sync,
    J: LaneJob<R, A, G, W> + Send + Drop,
>(
    rt: &W,
    alloc: Global,
    gate: &G,
    geometry: Geometry,
    uber: Uber<A>,
    made: Locks<R, A>,
    numbers: &[Vec<Span>],
    rooms: Vec<Vec<Pass<Cell<R, A>>>>,
    owns: Vec<Own>,
    jobs: Vec<J>,
) -> Behind<R, A, J>
    requires first { AreFirst made.turns.items made.firsts.items }
    requires back { (made.back.items ≡ []) × (length made.turns.items ≤ vec_capacity made.back) }
    requires rooms { AreRooms (length numbers.now) (length made.turns.items) rooms.items }
    requires groups { EndWithGroups numbers.now (length owns.items) }
    requires alike { length jobs.items ≡ length owns.items }
    requires few { length owns.items ≤ 16 }
    requires some { EachHoldsSome numbers.now }
    requires apart { (n : ℕ) → shares n numbers.now ≤ one_if (holds n all_numbers) }
    requires other { KeepsOne all_numbers numbers.now }
    requires governs { GovernsFirst R.Rack A.Area made.turns.items uber }
    requires may { MayRunLocked R.Rack A.Area J.needs geometry made.turns.items uber numbers.now owns jobs }
    requires keeps { KeepLanes R.Rack A.Area J.needs J.relates }
    ensures ran { IfOk result.ran (λ _. RunsLocked R.Rack A.Area J.relates geometry made.turns.items uber numbers.now owns jobs result.uber result.shards.items result.owns result.jobs) }
    ensures refused { IfErr result.ran (λ _. (result.uber ≡ uber) × (result.shards.items ≡ shards_under made.turns.items)) }
{
    let Locks {
        turns,
        mut firsts,
        back,
    } = made;
    let mut passes = deal_each(&turns, &mut firsts, numbers, rooms);
    let groups = passes.pop().unwrap();
    let mut shares = Shares { passes, owns, jobs };
    let (uber, groups, ran) = run_under(
        rt,
        alloc,
        gate,
        geometry,
        &turns,
        uber,
        groups,
        &mut shares,
    );
    let Shares {
        mut passes,
        owns,
        jobs,
    } = shares;
    passes.push_reserved(groups);
    let shards = unlock_each(rt, turns, firsts, passes, back);
    Behind {
        uber,
        shards,
        owns,
        jobs,
        ran,
    }
}
