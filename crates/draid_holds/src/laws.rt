ghost use Rattle.std.specs.Prelude.{◌≡◌, ◌++◌, ℕ, List, Some, slice_get};
ghost use Rattle.draid_turn.specs.declared.past.Past.{Past};
ghost use Rattle.draid_turn.specs.Calls.{Caller, Lock};
ghost use Rattle.draid_holds.specs.Calls.{AreHolds, CallsMade};
ghost use Rattle.draid_holds.specs.declared.calls.Call.{Call};
ghost use Rattle.draid_holds.specs.Holds.{Comes, Hold, HoldIn, LaneWent, Went, WentAt};

use draid_turn::{Act, Stand};

/// Law: a caller's holds stand in order in what it has seen at the end, each behind all that it had
/// seen before it, and their places are its own, hold by hold.
#[tactic(auto, using(crate::proofs::Holds::went_comes))]
pub fn holds_stand_in_order<T: Stand>()
    ensures { (old new : Caller (Past T)) (holds : List (Hold T))
        → Went old holds new → Comes old holds new }
{}

/// Law: of a lane's holds in several turns, those of one turn are the holds of its pass there.
#[tactic(auto, using(crate::proofs::Holds::went_at))]
pub fn lanes_go_turn_by_turn<T: Stand>()
    ensures { (old new : List (Caller (Past T))) (holds : List (HoldIn T)) (turn : ℕ)
        (pass : Caller (Past T)) → slice_get old turn ≡ Some pass → LaneWent old holds new
        → WentAt turn pass holds new }
{}

/// Law: what a lane did, and what it did after that, are one list of holds.
#[tactic(auto, using(crate::proofs::Holds::went_on))]
pub fn lanes_go_on<T: Stand>()
    ensures { (old mid new : List (Caller (Past T))) (front back : List (HoldIn T))
        → LaneWent old front mid → LaneWent mid back new → LaneWent old (front ++ back) new }
{}

/// Law: calls that a lane made one after another are holds, one for each call.
#[tactic(auto, using(crate::proofs::LaneCalls::calls_hold))]
pub fn calls_are_holds<T: Stand, O: Act<T>>()
    ensures { (locks : List (Lock T)) (calls dones : List (Call O)) (old new : List (Caller (Past T)))
        → CallsMade T.step O.relates O.concerns locks calls dones old new
        → AreHolds calls old new }
{}
