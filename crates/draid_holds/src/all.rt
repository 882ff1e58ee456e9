ghost use Rattle.std.specs.Prelude.{◌≡◌, ◌+◌, ◌-◌, ◌<◌, ◌≤◌, [], ℕ, All, IfOk, IfErr, length, map, slice_index_or, vec_capacity};
ghost use Rattle.std.specs.declared.vec.Vec.{Vec};
ghost use Rattle.std.specs.declared.alloc.Global.{Global};
ghost use Rattle.draid_turn.specs.declared.span.Span.{Span};
ghost use Rattle.draid_turn.specs.Calls.{Lock, newcomer};
ghost use Rattle.draid_turn.specs.Lists.{one_if, one_within};
ghost use Rattle.draid_turn.specs.Numbers.{HoldsSome, all_numbers, holds, number_limit};
ghost use Rattle.draid_holds.specs.All.{AllMayWork, RanAll};
ghost use Rattle.draid_holds.specs.Lanes.{pass_of, work_of};
ghost use Rattle.draid_holds.specs.Passes.{EachHoldsSome, KeepsOne, newcomers, shares};

use crate::lanes::{Lane, Work, run_and_close};
use draid_turn::{Pass, Refused, Span, Stand, Turn};
use std::alloc::{AllocError, Global};
use std::sync::Wait;
use std::thread::Threads;

/// There was no memory to begin with. What was given comes back.
#[derive(Drop)]
pub struct Unstarted<T, W> {
    pub value: T,
    pub works: Vec<W>,
}

/// Gives each work a pass, which holds its list of numbers.
fn split_lanes<T: Stand, W: Drop>(
    turn: &Turn<T>,
    first: &mut Pass<T>,
    numbers: &[Vec<Span>],
    works: Vec<W>,
    mut lanes: Vec<Lane<T, W>>,
) -> Vec<Lane<T, W>>
    requires own { first.old.table ≡ turn.now.table }
    requires none { lanes.items ≡ [] }
    requires count { length works.items ≡ length numbers.now }
    requires room { length numbers.now ≤ vec_capacity lanes }
    requires some { EachHoldsSome numbers.now }
    requires apart { (n : ℕ) → shares n numbers.now ≤ one_if (holds n first.old.numbers) }
    requires other { KeepsOne first.old.numbers numbers.now }
    ensures passes { map pass_of result.items ≡ newcomers first.old numbers.now }
    ensures works { map work_of result.items ≡ works.items }
    ensures own { (first.new.table ≡ first.old.table) × (first.new.own ≡ first.old.own) }
    ensures left { (n : ℕ) → one_if (holds n first.new.numbers) + shares n numbers.now ≡ one_if (holds n first.old.numbers) }
{
    'works: for work in works {
        let pass = turn.split(first, &numbers[lanes.len()]);
        lanes.push_reserved(Lane { pass, work });
    }
    lanes
}

/// Room for so many lanes, and for their passes and works once they ran.
fn rooms<T: Stand, W: Drop>(
    alloc: Global,
    count: usize,
) -> Result<(Vec<Lane<T, W>>, Vec<Pass<T>>, Vec<W>), AllocError>
    ensures none { IfOk result (λ rooms. (rooms.0.items ≡ []) × (rooms.1.items ≡ []) × (rooms.2.items ≡ [])) }
    ensures room { IfOk result (λ rooms. (count ≤ vec_capacity rooms.0)
        × (count ≤ vec_capacity rooms.1) × (count ≤ vec_capacity rooms.2)) }
{
    let lanes = Vec::with_capacity(alloc, count)?;
    let passes = Vec::with_capacity(alloc, count)?;
    let works = Vec::with_capacity(alloc, count)?;
    Ok((lanes, passes, works))
}

/// Splits the passes off, runs the lanes and closes the turn.
fn run_split<T: Stand + Send + Drop, W: Work<T> + Send + Drop, R: Threads + Wait + Sync>(
    rt: &R,
    turn: Turn<T>,
    mut first: Pass<T>,
    numbers: &[Vec<Span>],
    works: Vec<W>,
    rooms: (Vec<Lane<T, W>>, Vec<Pass<T>>, Vec<W>),
) -> (T, Vec<W>)
    requires first { first ≡ newcomer turn.table [] all_numbers }
    requires count { length works.items ≡ length numbers.now }
    requires some { EachHoldsSome numbers.now }
    requires apart { (n : ℕ) → shares n numbers.now ≤ one_within 0 (number_limit - 1) n }
    requires may { AllMayWork W.needs numbers.now works.items turn }
    requires none { (rooms.0.items ≡ []) × (rooms.1.items ≡ []) × (rooms.2.items ≡ []) }
    requires room { (length works.items ≤ vec_capacity rooms.0)
        × (length works.items ≤ vec_capacity rooms.1) × (length works.items ≤ vec_capacity rooms.2) }
    ensures { RanAll T.step W.relates turn.first numbers.now works.items result.0 result.1.items }
{
    let (lanes, passes, done) = rooms;
    let lanes = split_lanes(&turn, &mut first, numbers, works, lanes);
    run_and_close(rt, turn, first, lanes, passes, done)
}

/// Puts the value under a lock, runs the works in lanes of their own, and gives the value back. Each
/// list has the numbers of the work at its place.
pub fn run_all<T: Stand + Send + Drop, W: Work<T> + Send + Drop, R: Threads + Wait + Sync>(
    rt: &R,
    alloc: Global,
    value: T,
    numbers: &[Vec<Span>],
    works: Vec<W>,
) -> Result<(T, Vec<W>), Unstarted<T, W>>
    requires count { length works.items ≡ length numbers.now }
    requires some { EachHoldsSome numbers.now }
    // No number is in two lists, and the greatest is in none.
    requires apart { (n : ℕ) → shares n numbers.now ≤ one_within 0 (number_limit - 1) n }
    requires may { (lock : Lock T) → lock.first ≡ value
        → AllMayWork W.needs numbers.now works.items lock }
    ensures ran { IfOk result (λ done. RanAll T.step W.relates value numbers.now works.items done.0 done.1.items) }
    ensures refused { IfErr result (λ left. (left.value ≡ value) × (left.works ≡ works)) }
{
    let Ok(rooms) = rooms(alloc, works.len()) else {
        return Err(Unstarted { value, works });
    };
    match Turn::new(alloc, value) {
        Ok((turn, first)) => Ok(run_split(rt, turn, first, numbers, works, rooms)),
        Err(refused) => {
            let Refused { value } = refused;
            Err(Unstarted { value, works })
        }
    }
}
