//! Metaslabs that are put under locks, the passes that lanes get of these, and metaslabs that are taken out again.
ghost use Rattle.std.specs.Prelude.{◌≡◌, ◌+◌, ◌<◌, ◌≤◌, ◌++◌, [], ℕ, All, IfErr, IfOk, IsTrue, Some, length, reverse, slice_get, vec_capacity};
ghost use Rattle.std.specs.declared.vec.Vec.{Vec};
ghost use Rattle.std.specs.declared.alloc.Global.{Global};
ghost use Rattle.draid_turn.specs.Calls.{Caller};
ghost use Rattle.draid_turn.specs.Lists.{one_if};
ghost use Rattle.draid_turn.specs.Numbers.{HoldsSome, all_numbers, holds, number_limit};
ghost use Rattle.draid_turn.specs.declared.past.Past.{Past};
ghost use Rattle.draid_holds.specs.Passes.{EachHoldsSome, KeepsOne, holders, shares};
ghost use Rattle.draid_pool.specs.declared.cell.Cell.{Cell};
ghost use Rattle.draid_section.specs.Opening.{AreClosed, AreDealt, AreFirst, AreJoined, AreLocked, AreRooms, AreUnlocked, BelongTo, EachSplits, EachTakes, MaySplit, passes_at, shards_under};

use draid_area::Area;
use draid_pool::Cell;
use draid_rack::Rack;
use draid_shard::Shard;
use draid_turn::{Pass, Refused, Span, Turn};
use std::alloc::{AllocError, Global};
use std::sync::Wait;

/// Metaslabs under locks: a lock each, a pass of it that holds all numbers, and room to take them back.
#[derive(Drop)]
pub struct Locks<R: Rack, A: Area> {
    pub turns: Vec<Turn<Cell<R, A>>>,
    pub firsts: Vec<Pass<Cell<R, A>>>,
    pub back: Vec<Shard<R, A>>,
}

/// Memory was wanting. The metaslabs come back as they were.
#[derive(Drop)]
pub struct Unlocked<R: Rack, A: Area> {
    pub shards: Vec<Shard<R, A>>,
}

/// Room for so many locks, and for a pass of each.
fn lock_rooms<R: Rack, A: Area>(
    alloc: Global,
    count: usize,
) -> Result<(Vec<Turn<Cell<R, A>>>, Vec<Pass<Cell<R, A>>>), AllocError>
    ensures none { IfOk result (λ rooms. (rooms.0.items ≡ []) × (rooms.1.items ≡ [])) }
    ensures room { IfOk result (λ rooms. (count ≤ vec_capacity rooms.0) × (count ≤ vec_capacity rooms.1)) }
{
    let turns = Vec::with_capacity(alloc, count)?;
    let firsts = Vec::with_capacity(alloc, count)?;
    Ok((turns, firsts))
}

/// Puts metaslabs under locks, the last one first, and answers whether there was memory for all.
fn lock_rest<R: Rack, A: Area>(
    alloc: Global,
    shards: &mut Vec<Shard<R, A>>,
    turns: &mut Vec<Turn<Cell<R, A>>>,
    firsts: &mut Vec<Pass<Cell<R, A>>>,
) -> bool
    requires none { (turns.old.items ≡ []) × (firsts.old.items ≡ []) }
    requires room { length shards.old.items ≤ vec_capacity turns.old }
    requires room_firsts { length shards.old.items ≤ vec_capacity firsts.old }
    ensures all { IsTrue result → shards.new.items ≡ [] }
    ensures locked { shards.old.items ≡ shards.new.items ++ reverse (shards_under turns.new.items) }
    ensures first { AreFirst turns.new.items firsts.new.items }
    ensures back { vec_capacity shards.new ≡ vec_capacity shards.old }
{
    'shards: while let Some(shard) = shards.pop() {
        match Turn::new(alloc, Cell { shard }) {
            Ok((turn, first)) => {
                turns.push_reserved(turn);
                firsts.push_reserved(first);
            }
            Err(refused) => {
                let Refused { value } = refused;
                let Cell { shard } = value;
                shards.push_reserved(shard);
                return false;
            }
        }
    }
    true
}

/// Takes metaslabs out of their locks, the last one first, behind those that are back already.
fn take_back<R: Rack, A: Area, W: Wait>(
    rt: &W,
    mut turns: Vec<Turn<Cell<R, A>>>,
    mut firsts: Vec<Pass<Cell<R, A>>>,
    mut back: Vec<Shard<R, A>>,
) -> Vec<Shard<R, A>>
    requires fits { BelongTo turns.items firsts.items }
    requires room { length back.items + length turns.items ≤ vec_capacity back }
    ensures { AreClosed R.Rack A.Area turns.items firsts.items back.items result.items }
{
    'turns: while let Some(turn) = turns.pop() {
        let first = firsts.pop().unwrap();
        let Cell { shard } = turn.close(rt, first);
        back.push_reserved(shard);
    }
    back
}

/// Puts each metaslab under a lock of its own.
pub fn lock_each<R: Rack, A: Area, W: Wait>(
    rt: &W,
    alloc: Global,
    mut shards: Vec<Shard<R, A>>,
) -> Result<Locks<R, A>, Unlocked<R, A>>
    ensures locked { IfOk result (λ made. AreLocked shards.items made.turns.items made.firsts.items) }
    ensures first { IfOk result (λ made. AreFirst made.turns.items made.firsts.items) }
    ensures room { IfOk result (λ made. (made.back.items ≡ []) × (length shards.items ≤ vec_capacity made.back)) }
    ensures refused { IfErr result (λ left. left.shards.items ≡ shards.items) }
{
    let Ok(rooms) = lock_rooms(alloc, shards.len()) else {
        return Err(Unlocked { shards });
    };
    let (mut turns, mut firsts) = rooms;
    if lock_rest(alloc, &mut shards, &mut turns, &mut firsts) {
        turns.reverse();
        firsts.reverse();
        return Ok(Locks {
            turns,
            firsts,
            back: shards,
        });
    }
    Err(Unlocked {
        shards: take_back(rt, turns, firsts, shards),
    })
}

/// For each of so many lists of numbers, room for a pass of each metaslab.
pub fn rooms<R: Rack, A: Area>(
    alloc: Global,
    lists: usize,
    metaslabs: usize,
) -> Result<Vec<Vec<Pass<Cell<R, A>>>>, AllocError>
    ensures { IfOk result (λ lanes. AreRooms lists metaslabs lanes.items) }
{
    let mut lanes = Vec::with_capacity(alloc, lists)?;
    for _ in 0..lists {
        lanes.push_reserved(Vec::with_capacity(alloc, metaslabs)?);
    }
    Ok(lanes)
}

/// Splits these numbers off the first pass of each metaslab.
fn deal<R: Rack, A: Area>(
    turns: &[Turn<Cell<R, A>>],
    firsts: &mut Vec<Pass<Cell<R, A>>>,
    numbers: &[Span],
    passes: &mut Vec<Pass<Cell<R, A>>>,
)
    requires some { HoldsSome numbers.now }
    requires may { MaySplit numbers.now turns.now firsts.old.items }
    requires none { passes.old.items ≡ [] }
    requires room { length turns.now ≤ vec_capacity passes.old }
    ensures { EachSplits numbers.now firsts.old.items firsts.new.items passes.new.items }
{
    for at in 0..turns.len() {
        let pass = turns[at].split(&mut firsts[at], numbers);
        passes.push_reserved(pass);
    }
}

/// Splits each metaslab's first pass: for each list of numbers a pass of each metaslab, dealt by list.
pub fn deal_each<R: Rack, A: Area>(
    turns: &[Turn<Cell<R, A>>],
    firsts: &mut Vec<Pass<Cell<R, A>>>,
    numbers: &[Vec<Span>],
    mut lanes: Vec<Vec<Pass<Cell<R, A>>>>,
) -> Vec<Vec<Pass<Cell<R, A>>>>
    requires first { AreFirst turns.now firsts.old.items }
    requires rooms { AreRooms (length numbers.now) (length turns.now) lanes.items }
    requires some { EachHoldsSome numbers.now }
    // No number is in two lists, and there is one in none.
    requires apart { (n : ℕ) → shares n numbers.now ≤ one_if (holds n all_numbers) }
    requires other { KeepsOne all_numbers numbers.now }
    ensures { AreDealt turns.now numbers.now result.items firsts.new.items }
{
    for i in 0..numbers.len() {
        deal(turns, firsts, &numbers[i], &mut lanes[i]);
    }
    lanes
}

/// Joins a lane's passes to the first ones.
fn join_lane<R: Rack, A: Area>(
    turns: &[Turn<Cell<R, A>>],
    firsts: &mut Vec<Pass<Cell<R, A>>>,
    mut passes: Vec<Pass<Cell<R, A>>>,
)
    requires fits { BelongTo turns.now firsts.old.items }
    requires fits_passes { BelongTo turns.now passes.items }
    ensures { EachTakes firsts.old.items passes.items firsts.new.items }
{
    'passes: while let Some(pass) = passes.pop() {
        let at = passes.len();
        turns[at].join(&mut firsts[at], pass);
    }
}

/// Joins the passes of all lanes to the first ones.
fn join_lanes<R: Rack, A: Area>(
    turns: &[Turn<Cell<R, A>>],
    firsts: &mut Vec<Pass<Cell<R, A>>>,
    mut lanes: Vec<Vec<Pass<Cell<R, A>>>>,
)
    requires fits { BelongTo turns.now firsts.old.items }
    requires fits_lanes { All (λ (lane : Vec (Caller (Past (Cell R A))) Global). BelongTo turns.now lane.items) lanes.items }
    ensures { AreJoined firsts.old.items lanes.items firsts.new.items }
{
    'lanes: while let Some(lane) = lanes.pop() {
        join_lane(turns, firsts, lane);
    }
}

/// Takes each metaslab out of its lock, behind all holds of all lanes.
pub fn unlock_each<R: Rack, A: Area, W: Wait>(
    rt: &W,
    turns: Vec<Turn<Cell<R, A>>>,
    mut firsts: Vec<Pass<Cell<R, A>>>,
    lanes: Vec<Vec<Pass<Cell<R, A>>>>,
    back: Vec<Shard<R, A>>,
) -> Vec<Shard<R, A>>
    requires fits { BelongTo turns.items firsts.items }
    requires fits_lanes { All (λ (lane : Vec (Caller (Past (Cell R A))) Global). BelongTo turns.items lane.items) lanes.items }
    requires all { (m : ℕ) (first : Caller (Past (Cell R A))) → slice_get firsts.items m ≡ Some first → (n : ℕ) → n < number_limit → 1 ≤ one_if (holds n first.numbers) + holders n (passes_at m lanes.items) }
    requires none { back.items ≡ [] }
    requires room { length turns.items ≤ vec_capacity back }
    ensures { AreUnlocked R.Rack A.Area turns.items firsts.items lanes.items result.items }
{
    join_lanes(&turns, &mut firsts, lanes);
    let mut shards = take_back(rt, turns, firsts, back);
    shards.reverse();
    shards
}
