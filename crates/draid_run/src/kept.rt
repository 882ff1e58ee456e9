ghost use Rattle.std.specs.Prelude.{◌≡◌, ◌∷◌, ◌++◌, [], ℕ, Bool, List, Option, Some, Ok, length};
ghost use Rattle.std.specs.declared.alloc.Global.{Global as Heap};
ghost use Rattle.std.specs.declared.vec.Vec.{Vec};
ghost use Rattle.draid_names.specs.declared.journal.Entry.{Entry};
ghost use Rattle.draid_reply.specs.declared.reply.Reply.{Reply};
ghost use Rattle.draid_script.specs.Grammar.{line_of};
ghost use Rattle.draid_script.specs.Line.{ReadObject, WriteObject};
ghost use Rattle.draid_session.specs.Known.{Known};
ghost use Rattle.draid_session.specs.Reads.{ReadsAs};
ghost use Rattle.draid_session.specs.Said.{Said, alone};
ghost use Rattle.draid_session.specs.Session.{Foreign, Runs, Sitting, sits};
ghost use Rattle.draid_run.specs.Spares.{AllSpare};
ghost use Rattle.draid_pool.specs.Shelves.{OnShelf};
ghost use Rattle.draid_run.specs.Shelves.{MayFind};

use draid_area::Area;
use draid_rack::Rack;
use draid_session::Decides;

/// Law: on a pool that was found and that no known session left, an object that was written is read as those bytes, and one
/// that was read is read as the same bytes again, where no line between the two writes or frees it, gives the pool back or opens a section.
pub fn known_objects_are_read<R: Rack, A: Area, D: Decides>(rack: &R, area: &A, decider: &D)
    ensures written { (entry : OnShelf) (tells : Bool) (write read : List ℕ) (lines : List (List ℕ)) (replies : List (List Said)) (object o p : ℕ) (bytes : List ℕ) (got : Vec ℕ Heap) (known : Known) (journal : List Entry) (last : Sitting)
        → line_of write ≡ Ok (WriteObject object bytes) → line_of read ≡ Ok (ReadObject object) → AllSpare object lines → length replies ≡ length lines
        → Runs (D.choices decider.now) (MayFind R.Rack A.Area entry) tells (sits (Foreign known) journal) (write ∷ (lines ++ (read ∷ []))) (alone (Reply.Written o) ∷ (replies ++ (alone (Reply.Contents p got) ∷ []))) last
        → ReadsAs bytes got.items }
    ensures again { (entry : OnShelf) (tells : Bool) (first read : List ℕ) (lines : List (List ℕ)) (replies : List (List Said)) (object o p : ℕ) (was got : Vec ℕ Heap) (known : Known) (journal : List Entry) (last : Sitting)
        → line_of first ≡ Ok (ReadObject object) → line_of read ≡ Ok (ReadObject object) → AllSpare object lines → length replies ≡ length lines
        → Runs (D.choices decider.now) (MayFind R.Rack A.Area entry) tells (sits (Foreign known) journal) (first ∷ (lines ++ (read ∷ []))) (alone (Reply.Contents o was) ∷ (replies ++ (alone (Reply.Contents p got) ∷ []))) last
        → ReadsAs was.items got.items }
{}
