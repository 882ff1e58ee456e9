ghost use Rattle.std.specs.Prelude.{◌≡◌, ℕ, Bool, List, Option, true, is_some};
ghost use Rattle.draid_shelf.specs.Memory.{HoldsNothing};
ghost use Rattle.draid_session.specs.Book.{Book, blank};
ghost use Rattle.draid_session.specs.Keeping.{Keeps};
ghost use Rattle.draid_session.specs.Present.{DeskReached};
ghost use Rattle.draid_session.specs.Session.{Shut};
ghost use Rattle.draid_session.specs.State.{State};
ghost use Rattle.draid_pool.specs.Shelves.{OnShelf, on_shelf};
ghost use Rattle.draid_run.specs.Books.{KeepsBook};
ghost use Rattle.draid_run.specs.Script.{RunIs};
ghost use Rattle.draid_run.specs.Shelves.{HoldsDesk};
ghost use Rattle.draid_exits.specs.declared.status.Status.{Status};

use draid_area::Area;
use draid_rack::Rack;
use draid_session::Decides;
use draid_shelf::{MemoryShelf, Shelf};

/// Law: on a shelf that tells, legal histories give the states of the metaslabs of a pool that it holds.
pub fn told_pools_are_reached()
    ensures { (shelf : OnShelf) (crash : Bool) (x : State) → is_some shelf.held ≡ true → HoldsDesk (Shut crash x) shelf shelf → DeskReached (Shut crash x) }
{}

/// Law: on a shelf that tells, a pool that it holds has a book.
pub fn known_pools_have_a_book()
    ensures { (shelf : OnShelf) (crash : Bool) (x : State) → is_some shelf.held ≡ true → HoldsDesk (Shut crash x) shelf shelf
        → (book : Book) × Keeps (Shut crash x) book }
{}

/// Law: a run over a new shelf in memory is answered as a book has it that begins blank.
pub fn new_shelves_keep_the_book<R: Rack, A: Area, D: Decides>(
    rack: &R,
    area: &A,
    decider: &D,
    shelf: &MemoryShelf,
)
    requires { HoldsNothing shelf.now.devices }
    ensures { (words : List (List ℕ)) (status : Status) (input old new : Option (List ℕ)) (now : OnShelf)
        → RunIs R.Rack A.Area (D.choices decider.now) words status input old new (on_shelf ⟦<MemoryShelf as Shelf>⟧ shelf.now) now
        → (book : Book) × KeepsBook words status input old new blank book }
{}
