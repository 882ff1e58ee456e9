ghost use Rattle.std.specs.Prelude.{◌≡◌, ◌≤◌, ◌<◌, ℕ, [], All, IfOk, length, vec_capacity};
ghost use Rattle.std.specs.declared.vec.Vec.{Vec};
ghost use Rattle.std.specs.declared.alloc.Global.{Global};
ghost use Rattle.draid_turn.specs.declared.span.Span.{Span};
ghost use Rattle.draid_turn.specs.Lists.{one_within};
ghost use Rattle.draid_turn.specs.Numbers.{HoldsSome, all_numbers};
ghost use Rattle.draid_holds.specs.Passes.{shares};
ghost use Rattle.draid_holds.specs.declared.calls.Call.{Call};

use crate::log::{Log, Put, Putting};
use draid_holds::{Call, close_each, make_calls, run_all, split_each};
use draid_turn::{Pass, Span, Turn};
use std::alloc::{AllocError, Global};
use std::sync::Wait;
use std::thread::Threads;

/// For each of so many lanes its own number.
fn own_numbers(alloc: Global, lanes: u32) -> Result<Vec<Vec<Span>>, AllocError>
    ensures count { IfOk result (λ lists. length lists.items ≡ lanes) }
    ensures some { IfOk result (λ lists. All (λ (list : Vec Span Global). HoldsSome list.items) lists.items) }
    ensures apart { IfOk result (λ lists. (n : ℕ) → shares n lists.items ≡ one_within 0 lanes n) }
{
    let mut lists = Vec::new(alloc);
    for lane in 0..lanes {
        let own = Span {
            first: lane as u64,
            last: lane as u64,
        };
        lists.push(vec![in alloc; own]?)?;
    }
    Ok(lists)
}

/// Whether each lane's numbers came in its order.
fn are_in_order(entries: &[u64]) -> bool {
    let mut next = [0, 2000, 4000, 6000];
    for entry in entries {
        let lane = (*entry / 2000) as usize;
        if lane >= 4 || next[lane] != *entry {
            return false;
        }
        next[lane] = next[lane].wrapping_add(1);
    }
    true
}

/// The works of four lanes, each of which puts 2,000 numbers.
fn works<R: Wait>(rt: &R, alloc: Global) -> Result<Vec<Putting<R>>, AllocError> {
    let mut works = Vec::new(alloc);
    for lane in 0..4u64 {
        works.push(Putting {
            rt,
            from: lane * 2000,
            count: 2000,
        })?;
    }
    Ok(works)
}

/// Whether those works write a log of all these numbers, and come back.
fn write_one_history<R: Threads + Wait + Sync>(
    rt: &R,
    alloc: Global,
    numbers: &[Vec<Span>],
    works: Vec<Putting<R>>,
) -> bool
    requires count { length works.items ≡ length numbers.now }
    requires some { All (λ (list : Vec Span Global). HoldsSome list.items) numbers.now }
    requires apart { (n : ℕ) → shares n numbers.now ≡ one_within 0 4 n }
{
    let log = Log {
        entries: Vec::new(alloc),
    };
    match run_all(rt, alloc, log, numbers, works) {
        Ok((log, works)) => {
            log.entries.len() == 8000 && works.len() == 4 && are_in_order(&log.entries)
        }
        Err(_) => false,
    }
}

/// Whether they do so in lanes that each have their own number.
fn four_lanes_write<R: Threads + Wait + Sync>(rt: &R, alloc: Global) -> bool {
    let Ok(numbers) = own_numbers(alloc, 4) else {
        return false;
    };
    match works(rt, alloc) {
        Ok(works) if works.len() == numbers.len() => write_one_history(rt, alloc, &numbers, works),
        _ => false,
    }
}

#[test]
fn four_lanes_write_one_history(rt: HostRuntime) {
    assert!(rt; four_lanes_write(&rt, rt.alloc()));
}

/// An empty log under a lock.
fn lock(alloc: Global) -> Result<(Turn<Log>, Pass<Log>), AllocError>
    ensures own { IfOk result (λ made. made.1.table ≡ made.0.table) }
    ensures all { IfOk result (λ made. made.1.numbers ≡ all_numbers) }
{
    let log = Log {
        entries: Vec::new(alloc),
    };
    match Turn::new(alloc, log) {
        Ok(made) => Ok(made),
        Err(_) => Err(AllocError),
    }
}

/// Puts a number in a turn; whether it is in.
fn put<R: Wait>(rt: &R, turn: &Turn<Log>, pass: &mut Pass<Log>, entry: u64) -> bool
    requires { pass.old.table ≡ turn.now.table }
    ensures { pass.new.table ≡ turn.now.table }
{
    let mut put = Put {
        entry,
        is_in: false,
    };
    turn.call(rt, pass, &mut put);
    put.is_in
}

/// Puts a number in a turn of a second pass, and then one in a turn of the first; whether both are in.
fn put_two<R: Wait>(rt: &R, turn: &Turn<Log>, first: &mut Pass<Log>) -> bool
    requires own { first.old.table ≡ turn.now.table }
    requires all { first.old.numbers ≡ all_numbers }
    ensures { first.new.table ≡ turn.now.table }
{
    let own = Span { first: 7, last: 7 };
    let mut second = turn.split(first, &[own]);
    let two = put(rt, turn, &mut second, 2);
    let one = put(rt, turn, first, 1);
    turn.join(first, second);
    one && two
}

/// Whether those stand in one log, in that order.
fn two_passes_put<R: Wait>(rt: &R, alloc: Global) -> bool {
    match lock(alloc) {
        Ok((turn, mut first)) => {
            let are_in = put_two(rt, &turn, &mut first);
            let log = turn.close(rt, first);
            are_in && log.entries.as_slice() == [2, 1].as_slice()
        }
        Err(_) => false,
    }
}

#[test]
fn two_passes_have_one_history(rt: HostRuntime) {
    assert!(rt; two_passes_put(&rt, rt.alloc()));
}

fn call(turn: usize, entry: u64) -> Call<Put>
    ensures { result.turn ≡ turn }
{
    let op = Put {
        entry,
        is_in: false,
    };
    Call { turn, op }
}

/// Three calls of a lane, in the second turn, in the first, and in the second.
fn three_calls(alloc: Global) -> Result<Vec<Call<Put>>, AllocError>
    ensures { IfOk result (λ calls. All (λ (call : Call Put). call.turn < 2) calls.items) }
{
    Ok(vec![in alloc; call(1, 5), call(0, 6), call(1, 7)]?)
}

/// Makes calls in two turns, as far as there is memory for that.
fn call_in_two<R: Wait>(rt: &R, alloc: Global, calls: &mut Vec<Call<Put>>) -> Result<(), AllocError>
    requires { All (λ (call : Call Put). call.turn < 2) calls.old.items }
{
    let (left, left_pass) = lock(alloc)?;
    let (right, right_pass) = lock(alloc)?;
    let mut passes = vec![in alloc; left_pass, right_pass]?;
    make_calls(rt, &[left, right], &mut passes, calls);
    Ok(())
}

/// Whether there are three calls, and each put its number.
fn are_made(calls: &[Call<Put>]) -> bool {
    for call in calls {
        if !call.op.is_in {
            return false;
        }
    }
    calls.len() == 3
}

/// Whether it is so once three calls were made in two turns.
fn three_are_made<R: Wait>(rt: &R, alloc: Global) -> bool {
    match three_calls(alloc) {
        Ok(mut calls) => call_in_two(rt, alloc, &mut calls).is_ok() && are_made(&calls),
        Err(_) => false,
    }
}

#[test]
fn a_lane_calls_in_two_turns(rt: HostRuntime) {
    assert!(rt; three_are_made(&rt, rt.alloc()));
}

/// Whether two passes are split off for these numbers, and a log is empty once they are joined.
fn split_and_join<R: Wait>(
    rt: &R,
    alloc: Global,
    numbers: &[Vec<Span>],
    room: Vec<Pass<Log>>,
) -> bool
    requires count { length numbers.now ≡ 2 }
    requires some { All (λ (list : Vec Span Global). HoldsSome list.items) numbers.now }
    requires apart { (n : ℕ) → shares n numbers.now ≡ one_within 0 2 n }
    requires none { room.items ≡ [] }
    requires room { 2 ≤ vec_capacity room }
{
    match lock(alloc) {
        Ok((turn, mut first)) => {
            let passes = split_each(&turn, &mut first, numbers, room);
            let are_two = passes.len() == 2;
            let log = close_each(rt, turn, first, passes);
            are_two && log.entries.is_empty()
        }
        Err(_) => false,
    }
}

/// Whether it is so of a number for each.
fn two_are_split_off<R: Wait>(rt: &R, alloc: Global) -> bool {
    let Ok(numbers) = own_numbers(alloc, 2) else {
        return false;
    };
    match Vec::with_capacity(alloc, 2) {
        Ok(room) => split_and_join(rt, alloc, &numbers, room),
        Err(_) => false,
    }
}

#[test]
fn passes_are_split_off_and_joined(rt: HostRuntime) {
    assert!(rt; two_are_split_off(&rt, rt.alloc()));
}
