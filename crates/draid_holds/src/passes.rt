ghost use Rattle.std.specs.Prelude.{◌≡◌, ◌+◌, ◌<◌, ◌≤◌, [], ℕ, true, All, length, map, vec_capacity};
ghost use Rattle.std.specs.declared.vec.Vec.{Vec};
ghost use Rattle.std.specs.declared.alloc.Global.{Global};
ghost use Rattle.draid_turn.specs.declared.span.Span.{Span};
ghost use Rattle.draid_turn.specs.Calls.{Caller, newcomer};
ghost use Rattle.draid_turn.specs.Lists.{StartsWith, one_if, times};
ghost use Rattle.draid_turn.specs.Numbers.{HoldsSome, holds, number_limit};
ghost use Rattle.draid_holds.specs.Passes.{AllSeen, AreInside, AreOf, ClosesEach, EachHoldsSome, FollowsOwn, KeepsOne, holders, makers, newcomers, shares};

use draid_turn::{Pass, Span, Stand, Turn};
use std::sync::Wait;

/// Splits a pass off for each list of numbers, in their order.
pub fn split_each<T: Stand>(
    turn: &Turn<T>,
    first: &mut Pass<T>,
    numbers: &[Vec<Span>],
    mut passes: Vec<Pass<T>>,
) -> Vec<Pass<T>>
    requires own { first.old.table ≡ turn.now.table }
    requires none { passes.items ≡ [] }
    requires room { length numbers.now ≤ vec_capacity passes }
    requires some { EachHoldsSome numbers.now }
    // No number is in two lists, and each is the first pass's, which keeps one.
    requires apart { (n : ℕ) → shares n numbers.now ≤ one_if (holds n first.old.numbers) }
    requires other { KeepsOne first.old.numbers numbers.now }
    ensures new { result.items ≡ newcomers first.old numbers.now }
    ensures same { (first.new.table ≡ first.old.table) × (first.new.seen ≡ first.old.seen) × (first.new.own ≡ first.old.own) }
    ensures left { (n : ℕ) → one_if (holds n first.new.numbers) + shares n numbers.now ≡ one_if (holds n first.old.numbers) }
{
    'lists: for list in numbers {
        passes.push_reserved(turn.split(first, list));
    }
    passes
}

/// Joins the passes to the first one.
pub fn join_each<T: Stand>(turn: &Turn<T>, first: &mut Pass<T>, mut passes: Vec<Pass<T>>)
    requires own { first.old.table ≡ turn.now.table }
    requires each { AreOf turn.now passes.items }
    ensures own { first.new.table ≡ first.old.table }
    ensures begins { StartsWith first.new.seen first.old.seen }
    ensures seen { AllSeen first.new.seen passes.items }
    ensures made { (x : ℕ) → times x first.new.own ≡ times x first.old.own + makers x passes.items }
    ensures numbers { (n : ℕ) → 1 ≤ one_if (holds n first.old.numbers) + holders n passes.items → holds n first.new.numbers ≡ true }
    // What a pass hadn't seen concerns none of its numbers, which the first pass has then.
    ensures inside { All (AreInside first.new.numbers) passes.items }
    ensures follows { All (FollowsOwn first.new.seen) passes.items }
    ensures first_inside { AreInside first.new.numbers first.old }
    ensures first_follows { FollowsOwn first.new.seen first.old }
{
    'passes: while let Some(pass) = passes.pop() {
        turn.join(first, pass);
    }
}

/// Joins the passes to the first one, and closes the turn. Since together they hold all numbers, each
/// hold is just one pass's.
pub fn close_each<T: Stand + Drop, R: Wait>(
    rt: &R,
    turn: Turn<T>,
    mut first: Pass<T>,
    passes: Vec<Pass<T>>,
) -> T
    requires own { first.table ≡ turn.table }
    requires each { AreOf turn passes.items }
    requires all { (n : ℕ) → n < number_limit → 1 ≤ one_if (holds n first.numbers) + holders n passes.items }
    ensures { ClosesEach T.step turn.first first passes.items result }
{
    join_each(&turn, &mut first, passes);
    turn.close(rt, first)
}
