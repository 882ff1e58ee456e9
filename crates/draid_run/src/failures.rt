ghost use Rattle.std.specs.Prelude.{◌≡◌, ℕ, List, Option, Some, true, is_some};
ghost use Rattle.draid_names.specs.Faults.{Rose};
ghost use Rattle.draid_lines.specs.Lines.{lines_of};
ghost use Rattle.draid_session.specs.Looks.{AllOf};
ghost use Rattle.draid_session.specs.Session.{Desk, KnowsShelf};
ghost use Rattle.draid_session.specs.Staying.{MakesNoPool};
ghost use Rattle.draid_pool.specs.Shelves.{OnShelf};
ghost use Rattle.draid_run.specs.Script.{RunIs, input_of};
ghost use Rattle.draid_run.specs.Shelves.{HoldsDesk};
ghost use Rattle.draid_run.specs.Unfailing.{EndsUnfailing, NothingRose};
ghost use Rattle.draid_exits.specs.declared.status.Status.{Status};

use draid_area::Area;
use draid_rack::Rack;
use draid_session::Decides;

/// Law: over a shelf that tells what it holds, which the session knows, a run whose input makes no pool doesn't end for a
/// failing source, sink or shelf where no count of theirs rose. So with memory enough it ends with its input.
pub fn runs_without_failures_end_well<R: Rack, A: Area, D: Decides>(rack: &R, area: &A, decider: &D)
    ensures { (words : List (List ℕ)) (status : Status) (given : Option (List ℕ)) (input : List ℕ) (old new : Option (List ℕ)) (entry now : OnShelf) (first : Desk) (source_was source_is sink_was sink_is : ℕ)
        → RunIs R.Rack A.Area (D.choices decider.now) words status given old new entry now → input_of words given ≡ Some input
        → (status ≡ Status.SourceFault → Rose source_was source_is) → (status ≡ Status.SinkFault → Rose sink_was sink_is)
        → HoldsDesk first entry entry → is_some entry.held ≡ true → KnowsShelf first → AllOf MakesNoPool (lines_of input)
        → (Rose source_was source_is → ⊥) → (Rose sink_was sink_is → ⊥) → NothingRose entry now → EndsUnfailing status }
{}
