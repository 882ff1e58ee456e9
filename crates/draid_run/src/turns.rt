ghost use Rattle.std.specs.Prelude.{◌≡◌, ◌∷◌, ◌++◌, ℕ, Bool, List, length};
ghost use Rattle.draid_session.specs.Said.{Said};
ghost use Rattle.draid_session.specs.Looks.{AllOf};
ghost use Rattle.draid_session.specs.Places.{Outside, Place};
ghost use Rattle.draid_session.specs.Sections.{RunsOn};
ghost use Rattle.draid_session.specs.Session.{IsAnything, Runs, Sitting};
ghost use Rattle.draid_pool.specs.Shelves.{OnShelf};
ghost use Rattle.draid_run.specs.Lines.{IsTurn, OpensNone};
ghost use Rattle.draid_run.specs.Shelves.{MayFind};

use draid_area::Area;
use draid_rack::Rack;
use draid_session::Decides;

/// Law: the lines of a run can be looked at one by one: behind those before a line there is a desk from which the line
/// leads to another, with the replies to it, and the lines behind go on from there. So it is with those of a session,
/// where an import may find anything.
pub fn each_line_is_a_turn<R: Rack, A: Area, D: Decides>(rack: &R, area: &A, decider: &D)
    ensures run { (entry : OnShelf) (tells : Bool) (first last : Sitting) (front back : List (List ℕ)) (line : List ℕ) (said behind : List (List Said)) (saids : List Said) (to : Place)
        → length said ≡ length front
        → RunsOn (D.choices decider.now) (MayFind R.Rack A.Area entry) tells Outside first (front ++ line ∷ back) (said ++ saids ∷ behind) to last
        → IsTurn (D.choices decider.now) (MayFind R.Rack A.Area entry) tells first front said line saids back behind to last }
    ensures session { (tells : Bool) (first last : Sitting) (front back : List (List ℕ)) (line : List ℕ) (said behind : List (List Said)) (saids : List Said) (to : Place)
        → length said ≡ length front
        → RunsOn (D.choices decider.now) IsAnything tells Outside first (front ++ line ∷ back) (said ++ saids ∷ behind) to last
        → IsTurn (D.choices decider.now) IsAnything tells first front said line saids back behind to last }
{}

/// Law: the lines of a run are those of a session, of which the laws of sessions speak.
pub fn runs_are_sessions<R: Rack, A: Area, D: Decides>(rack: &R, area: &A, decider: &D)
    ensures { (entry : OnShelf) (tells : Bool) (from to : Place) (lines : List (List ℕ)) (replies : List (List Said)) (old new : Sitting)
        → RunsOn (D.choices decider.now) (MayFind R.Rack A.Area entry) tells from old lines replies to new
        → RunsOn (D.choices decider.now) IsAnything tells from old lines replies to new }
{}

/// Law: where no line opens a section, the lines of a run are answered one by one outside sections, and it stands there behind
/// them. The laws of sessions outside sections speak of such lines.
pub fn runs_without_sections_stay_outside<R: Rack, A: Area, D: Decides>(
    rack: &R,
    area: &A,
    decider: &D,
)
    ensures outside { (entry : OnShelf) (tells : Bool) (to : Place) (lines : List (List ℕ)) (replies : List (List Said)) (old new : Sitting)
        → RunsOn (D.choices decider.now) (MayFind R.Rack A.Area entry) tells Outside old lines replies to new → AllOf OpensNone lines
        → (to ≡ Outside) × Runs (D.choices decider.now) (MayFind R.Rack A.Area entry) tells old lines replies new }
    ensures back { (entry : OnShelf) (tells : Bool) (lines : List (List ℕ)) (replies : List (List Said)) (old new : Sitting)
        → Runs (D.choices decider.now) (MayFind R.Rack A.Area entry) tells old lines replies new
        → AllOf OpensNone lines × RunsOn (D.choices decider.now) (MayFind R.Rack A.Area entry) tells Outside old lines replies Outside new }
{}
