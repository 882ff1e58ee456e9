ghost use Rattle.std.specs.Prelude.{◌≡◌, ◌+◌, ◌<◌, ◌≤◌, [], ℕ, List, All, length, map, vec_capacity};
ghost use Rattle.draid_turn.specs.declared.past.Past.{Past};
ghost use Rattle.draid_turn.specs.Calls.{Caller, Lock};
ghost use Rattle.draid_turn.specs.Lists.{one_if};
ghost use Rattle.draid_turn.specs.Numbers.{holds, number_limit};
ghost use Rattle.draid_holds.specs.Holds.{Hold};
ghost use Rattle.draid_holds.specs.Lanes.{AllRan, EachWorked, MayWork, Worked, pass_of, work_of};
ghost use Rattle.draid_holds.specs.Passes.{holders};

use crate::passes::close_each;
use draid_turn::{Pass, Stand, Turn};
use std::sync::Wait;
use std::thread;
use std::thread::Threads;

/// What a lane does by its pass.
pub trait Work<T: Stand> {
    /// What it needs of the lock and of its pass.
    ghost needs: { Self → Lock T → Caller (Past T) → Type 0 };

    /// How it was before its holds, and how it is after them.
    ghost relates: { Self → List (Hold T) → Self → Type 0 };

    fn work(&mut self, turn: &Turn<T>, pass: &mut Pass<T>)
        requires own { pass.old.table ≡ turn.now.table }
        requires needed { needs self.old turn.now pass.old }
        ensures { Worked relates self.old self.new pass.old pass.new };
}

/// A lane: its pass, and what it does.
#[derive(Drop)]
pub struct Lane<T: Stand, W> {
    pub pass: Pass<T>,
    pub work: W,
}

/// Runs the lanes, each in a thread of its own where threads can be made.
pub fn run_lanes<T: Stand + Send, W: Work<T> + Send, R: Threads + Wait + Sync>(
    rt: &R,
    turn: &Turn<T>,
    lanes: &mut Vec<Lane<T, W>>,
)
    requires { All (MayWork W.needs turn.now) lanes.old.items }
    ensures count { length lanes.new.items ≡ length lanes.old.items }
    ensures worked { EachWorked W.relates lanes.old.items lanes.new.items }
{
    let count = lanes.len();
    if count == 0 {
        return;
    }
    thread::for_each_mut(
        rt,
        lanes,
        count,
        &|_, lane: &mut Lane<T, W>| {
            let Lane { pass, work } = lane;
            work.work(turn, pass);
        },
    );
}

/// The passes of the lanes, and their works.
fn part<T: Stand, W: Drop>(
    lanes: Vec<Lane<T, W>>,
    mut passes: Vec<Pass<T>>,
    mut works: Vec<W>,
) -> (Vec<Pass<T>>, Vec<W>)
    requires none { (passes.items ≡ []) × (works.items ≡ []) }
    requires room { (length lanes.items ≤ vec_capacity passes) × (length lanes.items ≤ vec_capacity works) }
    ensures passes { result.0.items ≡ map pass_of lanes.items }
    ensures works { result.1.items ≡ map work_of lanes.items }
{
    'lanes: for lane in lanes {
        let Lane { pass, work } = lane;
        passes.push_reserved(pass);
        works.push_reserved(work);
    }
    (passes, works)
}

/// Runs the lanes, joins their passes to the first one, and closes the turn. `passes` and `works` have room for as many.
pub fn run_and_close<T: Stand + Send + Drop, W: Work<T> + Send + Drop, R: Threads + Wait + Sync>(
    rt: &R,
    turn: Turn<T>,
    first: Pass<T>,
    mut lanes: Vec<Lane<T, W>>,
    passes: Vec<Pass<T>>,
    works: Vec<W>,
) -> (T, Vec<W>)
    requires own { first.table ≡ turn.table }
    requires may { All (MayWork W.needs turn) lanes.items }
    requires all { (n : ℕ) → n < number_limit → 1 ≤ one_if (holds n first.numbers) + holders n (map pass_of lanes.items) }
    requires none { (passes.items ≡ []) × (works.items ≡ []) }
    requires room { (length lanes.items ≤ vec_capacity passes) × (length lanes.items ≤ vec_capacity works) }
    ensures { AllRan T.step W.relates turn.first first lanes.items result.0 result.1.items }
{
    run_lanes(rt, &turn, &mut lanes);
    let (passes, works) = part(lanes, passes, works);
    (close_each(rt, turn, first, passes), works)
}
