ghost use Rattle.std.specs.Prelude.{◌≡◌, ◌∷◌, ◌++◌, [], ℕ, Bool, List, Option, Some, Ok, String, true, is_some, length};
ghost use Rattle.std.specs.declared.alloc.Global.{Global as Heap};
ghost use Rattle.draid_reply.specs.declared.reply.Reply.{Reply};
ghost use Rattle.draid_script.specs.Line.{CrashPool, ImportPool};
ghost use Rattle.draid_shelf.specs.Memory.{HoldsNothing};
ghost use Rattle.draid_session.specs.Present.{DeskReached};
ghost use Rattle.draid_session.specs.Said.{Said, alone};
ghost use Rattle.draid_session.specs.Session.{Bare, Desk, KnowsShelf, sits};
ghost use Rattle.draid_run.specs.Ending.{CanRun, EndsWell, IsUndisturbed};
ghost use Rattle.draid_run.specs.Next.{FindsAgain, IsFound, next_desk};
ghost use Rattle.draid_session.specs.Places.{line_behind};
ghost use Rattle.draid_run.specs.Script.{IsSession, RunsFrom};
ghost use Rattle.draid_pool.specs.Shelves.{OnShelf, on_shelf};
ghost use Rattle.draid_run.specs.Shelves.{HoldsDesk, MayFind, TellsAsBefore};
ghost use Rattle.draid_exits.specs.declared.status.Status.{Status};

use draid_area::Area;
use draid_rack::Rack;
use draid_session::Decides;
use draid_shelf::{MemoryShelf, Shelf};
use std::alloc::Global;

/// Law: where the words ask for a session, each line of the input can be run, no device fails and memory isn't
/// wanting, a run ends with its input, with status 0. Else a record has a fault, where the shelf's pool isn't known or
/// wasn't told.
pub fn undisturbed_runs_are_done<R: Rack, A: Area, D: Decides>(rack: &R, area: &A, decider: &D)
    ensures { (words : List (List ℕ)) (status : Status) (input : List ℕ) (old new : Option (List ℕ)) (entry now : OnShelf) (first : Desk)
        → (it : RunsFrom R.Rack A.Area (D.choices decider.now) words status (Some input) old new entry now first)
        → IsSession words → CanRun input → IsUndisturbed status → EndsWell status it.session.mid }
{}

/// Law: what a run left on its shelf is a desk of the next run, whatever its status was, and whether all that the shelf
/// holds had a crash between or not; and the shelf tells what it holds as it did. So the next run is one from there.
pub fn runs_follow_one_another<R: Rack, A: Area, D: Decides>(rack: &R, area: &A, decider: &D)
    ensures { (words : List (List ℕ)) (status : Status) (input old new : Option (List ℕ)) (entry now found : OnShelf) (first : Desk) (crash : Bool)
        → (it : RunsFrom R.Rack A.Area (D.choices decider.now) words status input old new entry now first)
        → IsFound crash now found → HoldsDesk (next_desk crash it.last) found found × TellsAsBefore entry found }
{}

/// Law: in a run over a shelf that tells what it holds, which the session knows, each import behind a crash that finds a
/// pool finds the one that was open, and of this a group that may be there, with just the objects that it kept.
pub fn crashed_pools_are_found_again<R: Rack, A: Area, D: Decides>(rack: &R, area: &A, decider: &D)
    ensures { (words : List (List ℕ)) (status : Status) (input old new : Option (List ℕ)) (entry now : OnShelf) (first : Desk)
        → (it : RunsFrom R.Rack A.Area (D.choices decider.now) words status input old new entry now first)
        → is_some entry.held ≡ true → HoldsDesk first entry entry → KnowsShelf first
        → (front back : List (List ℕ)) (crash import : List ℕ) (said behind : List (List Said)) (called : String Heap) (group objects : ℕ)
        → line_behind front crash ≡ Ok CrashPool → line_behind (front ++ crash ∷ []) import ≡ Ok ImportPool → length said ≡ length front
        → it.session.lines ≡ front ++ (crash ∷ import ∷ back)
        → it.session.replies ≡ said ++ (alone Reply.Crashed ∷ alone (Reply.Imported called group objects) ∷ behind)
        → FindsAgain (D.choices decider.now) (MayFind R.Rack A.Area entry) (sits first []) front said group objects back behind it.session.to (sits it.session.mid it.session.journal) }
{}

/// Law: legal histories give the states of the metaslabs of the pool that a run has open or gave back, behind its lines and
/// at the beginning of the next run, where they do at its beginning; and so they do where no session knew its pool then.
pub fn runs_stay_legal<R: Rack, A: Area, D: Decides>(alloc: Global, rack: &R, area: &A, decider: &D)
    ensures { (words : List (List ℕ)) (status : Status) (input old new : Option (List ℕ)) (entry now : OnShelf) (first : Desk) (crash : Bool)
        → (it : RunsFrom R.Rack A.Area (D.choices decider.now) words status input old new entry now first)
        → DeskReached first → DeskReached it.session.mid × DeskReached (next_desk crash it.last) }
{}

/// Law: a new shelf in memory tells that it has no pool.
pub fn new_shelves_have_no_pool(shelf: &MemoryShelf)
    requires { HoldsNothing shelf.now.devices }
    ensures { HoldsDesk Bare (on_shelf ⟦<MemoryShelf as Shelf>⟧ shelf.now) (on_shelf ⟦<MemoryShelf as Shelf>⟧ shelf.now) }
{}
