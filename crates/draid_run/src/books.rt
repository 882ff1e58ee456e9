ghost use Rattle.std.specs.Prelude.{◌≡◌, ℕ, List, Option, is_some, true};
ghost use Rattle.draid_session.specs.Book.{Book, blank};
ghost use Rattle.draid_session.specs.Keeping.{Keeps};
ghost use Rattle.draid_session.specs.Marked.{Marked, unmarked};
ghost use Rattle.draid_session.specs.Session.{Desk};
ghost use Rattle.draid_marked.specs.Keeping.{KeepsMarked};
ghost use Rattle.draid_run.specs.Books.{AreRuns, KeepBook, KeepsBook, OneRun};
ghost use Rattle.draid_run.specs.BooksMarked.{KeepMarked, KeepsMarkedBook};
ghost use Rattle.draid_run.specs.Script.{RunIs};
ghost use Rattle.draid_pool.specs.Shelves.{OnShelf};
ghost use Rattle.draid_run.specs.Shelves.{HoldsBare, HoldsDesk};
ghost use Rattle.draid_exits.specs.declared.status.Status.{Status};

use draid_area::Area;
use draid_rack::Rack;
use draid_session::Decides;

/// Law: over a shelf that tells that it has no pool, the lines of a run are answered as a book has it that begins blank; so
/// are those of runs one after another, with a crash of all that the shelf holds between two or not.
pub fn runs_keep_the_book<R: Rack, A: Area, D: Decides>(rack: &R, area: &A, decider: &D)
    ensures one { (words : List (List ℕ)) (status : Status) (input old new : Option (List ℕ)) (entry now : OnShelf)
        → RunIs R.Rack A.Area (D.choices decider.now) words status input old new entry now → HoldsBare entry
        → (book : Book) × KeepsBook words status input old new blank book }
    ensures several { (runs : List OneRun) (shelf : OnShelf)
        → AreRuns R.Rack A.Area (D.choices decider.now) shelf runs → HoldsBare shelf
        → (book : Book) × KeepBook blank runs book }
    ensures goes_on { (runs : List OneRun) (shelf : OnShelf) (desk : Desk) (book : Book)
        → AreRuns R.Rack A.Area (D.choices decider.now) shelf runs → HoldsDesk desk shelf shelf → is_some shelf.held ≡ true
        → Keeps desk book → (later : Book) × KeepBook book runs later }
{}

/// Law: so as a book has it that knows the objects of the checkpoint: what `rewind` gives back, and which checkpoint an
/// import finds.
pub fn runs_keep_the_marked_book<R: Rack, A: Area, D: Decides>(rack: &R, area: &A, decider: &D)
    ensures one { (words : List (List ℕ)) (status : Status) (input old new : Option (List ℕ)) (entry now : OnShelf)
        → RunIs R.Rack A.Area (D.choices decider.now) words status input old new entry now → HoldsBare entry
        → (m : Marked) × KeepsMarkedBook words status input old new (unmarked blank) m }
    ensures several { (runs : List OneRun) (shelf : OnShelf)
        → AreRuns R.Rack A.Area (D.choices decider.now) shelf runs → HoldsBare shelf
        → (m : Marked) × KeepMarked (unmarked blank) runs m }
    ensures goes_on { (runs : List OneRun) (shelf : OnShelf) (desk : Desk) (m : Marked)
        → AreRuns R.Rack A.Area (D.choices decider.now) shelf runs → HoldsDesk desk shelf shelf → is_some shelf.held ≡ true
        → KeepsMarked desk m → (later : Marked) × KeepMarked m runs later }
{}
