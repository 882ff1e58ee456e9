//! The uberblock that is put under a lock, the passes that lanes get of it, and the uberblock that is taken out again.
ghost use Rattle.std.specs.Prelude.{◌≡◌, ◌+◌, ◌<◌, ◌≤◌, [], ℕ, IfErr, IfOk, length, vec_capacity};
ghost use Rattle.draid_turn.specs.Calls.{newcomer};
ghost use Rattle.draid_turn.specs.Lists.{one_if};
ghost use Rattle.draid_turn.specs.Numbers.{all_numbers, holds, number_limit};
ghost use Rattle.draid_holds.specs.Passes.{AreOf, holders};
ghost use Rattle.draid_section.specs.Turning.{AreOfLanes, IsUberLock, UberComesBack};
ghost use Rattle.draid_lanes.specs.Ubers.{IsUberOf};

use draid_area::Area;
use draid_holds::close_each;
use draid_lanes::UberCell;
use draid_pool::Cell;
use draid_rack::Rack;
use draid_turn::{Pass, Refused, Span, Turn};
use draid_uber::Uber;
use std::alloc::Global;
use std::sync::Wait;

/// The uberblock under its lock, and a pass of it that holds all numbers.
#[derive(Drop)]
pub struct UberLock<'a, R: Rack, A: Area> {
    pub turn: Turn<UberCell<'a, R, A>>,
    pub first: Pass<UberCell<'a, R, A>>,
}

/// Memory was wanting. The uberblock and the passes of the groups come back as they were.
#[derive(Drop)]
pub struct UberUnlocked<R: Rack, A: Area> {
    pub uber: Uber<A>,
    pub groups: Vec<Pass<Cell<R, A>>>,
}

/// Puts the uberblock under a lock, with the passes that hold the groups of all metaslabs.
pub fn lock_uber<'a, R: Rack, A: Area>(
    alloc: Global,
    uber: Uber<A>,
    turns: &'a [Turn<Cell<R, A>>],
    groups: Vec<Pass<Cell<R, A>>>,
) -> Result<UberLock<'a, R, A>, UberUnlocked<R, A>>
    ensures locked { IfOk result (λ made. IsUberLock uber turns.now groups made.turn made.first) }
    ensures refused { IfErr result (λ left. (left.uber ≡ uber) × (left.groups ≡ groups)) }
{
    match Turn::new(
        alloc,
        UberCell {
            uber,
            turns,
            groups,
        },
    ) {
        Ok((turn, first)) => Ok(UberLock { turn, first }),
        Err(refused) => {
            let Refused { value } = refused;
            let UberCell {
                uber,
                turns: _,
                groups,
            } = value;
            Err(UberUnlocked { uber, groups })
        }
    }
}

/// A pass of the uberblock's lock for each of so many lanes, which holds the lane's number; the first pass keeps all others.
pub fn split_uber<'a, R: Rack, A: Area>(
    turn: &Turn<UberCell<'a, R, A>>,
    first: &mut Pass<UberCell<'a, R, A>>,
    count: u32,
    mut passes: Vec<Pass<UberCell<'a, R, A>>>,
) -> Vec<Pass<UberCell<'a, R, A>>>
    requires first { first.old ≡ newcomer turn.now.table [] all_numbers }
    requires few { count ≤ 16 }
    requires none { passes.items ≡ [] }
    requires room { count ≤ vec_capacity passes }
    ensures { AreOfLanes turn.now count result.items first.new }
{
    for lane in 0..count {
        let number = u64::from(lane);
        let span = Span {
            first: number,
            last: number,
        };
        let pass = turn.split(first, &[span]);
        passes.push_reserved(pass);
    }
    passes
}

/// Takes the uberblock out of its lock, behind all that was done in it by the first pass or by one of the others.
pub fn unlock_uber<'a, R: Rack, A: Area, W: Wait>(
    rt: &W,
    turn: Turn<UberCell<'a, R, A>>,
    first: Pass<UberCell<'a, R, A>>,
    passes: Vec<Pass<UberCell<'a, R, A>>>,
) -> (Uber<A>, Vec<Pass<Cell<R, A>>>)
    requires own { first.table ≡ turn.table }
    requires each { AreOf turn passes.items }
    requires all { (n : ℕ) → n < number_limit → 1 ≤ one_if (holds n first.numbers) + holders n passes.items }
    requires uber { IsUberOf R.Rack A.Area turn.first.turns.now turn.first.uber turn.first.groups }
    ensures { UberComesBack R.Rack A.Area turn.entry first.entry passes.entry.items result.0 result.1 }
{
    let UberCell {
        uber,
        turns: _,
        groups,
    } = close_each(rt, turn, first, passes);
    (uber, groups)
}
