ghost use Rattle.draid_holds.specs.Calls.{AllMayCall, CallsMade, DidIn, MayCallIn};
ghost use Rattle.draid_holds.specs.declared.calls.Call.{Call};

use draid_turn::{Act, Pass, Stand, Turn};
use std::sync::Wait;

/// An operation, and the turn in which it is called.
#[derive(Drop)]
pub struct Call<O> {
    pub turn: usize,
    pub op: O,
}

/// Calls an operation in one of several turns, by the lane's pass of that turn.
pub fn call_in<T: Stand, O: Act<T>, R: Wait>(
    rt: &R,
    turns: &[Turn<T>],
    passes: &mut Vec<Pass<T>>,
    turn: usize,
    op: &mut O,
)
    requires { MayCallIn T.step O.needs O.relates O.concerns op.old turn turns.now passes.old.items }
    ensures { DidIn T.step O.relates O.concerns turns.now turn op.old op.new
        passes.old.items passes.new.items }
{
    turns[turn].call(rt, &mut passes[turn], op);
}

/// Makes a lane's calls one after another.
pub fn make_calls<T: Stand, O: Act<T>, R: Wait>(
    rt: &R,
    turns: &[Turn<T>],
    passes: &mut Vec<Pass<T>>,
    calls: &mut Vec<Call<O>>,
)
    requires { AllMayCall T.step O.needs O.relates O.concerns turns.now passes.old.items calls.old.items }
    ensures { CallsMade T.step O.relates O.concerns turns.now calls.old.items calls.new.items
        passes.old.items passes.new.items }
{
    'calls: for i in 0..calls.len() {
        let Call { turn, op } = &mut calls[i];
        call_in(rt, turns, passes, *turn, op);
    }
}
