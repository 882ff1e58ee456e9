ghost use Rattle.std.specs.Prelude.{◌≡◌, ℕ, List, Option, true};
ghost use Rattle.draid_names.specs.declared.journal.Entry.{Entry};
ghost use Rattle.draid_spec.specs.declared.layout.Geometry.{Geometry};
ghost use Rattle.draid_reply.specs.declared.reply.Reply.{Reply};
ghost use Rattle.draid_script.specs.Line.{Command, RewindPool, TakeCheckpoint};
ghost use Rattle.draid_session.specs.Book.{Objects, blank};
ghost use Rattle.draid_session.specs.Looks.{AllOf};
ghost use Rattle.draid_session.specs.Marked.{HasMark, LeavesMark, Marked, MarkedAll, MarkedAnswers, unmarked};
ghost use Rattle.draid_session.specs.Places.{Outside, Place};
ghost use Rattle.draid_session.specs.Said.{Said};
ghost use Rattle.draid_session.specs.Sections.{RunsOn};
ghost use Rattle.draid_session.specs.Session.{Agrees, Bare, Breaks, Cause, Desk, IsAnything, Made, Runs, Sitting, left_of, sits};
ghost use Rattle.draid_marked.specs.Ending.{MarkedBreaks, shut_up};
ghost use Rattle.draid_marked.specs.Keeping.{KeepsMarked};
ghost use Rattle.draid_marked.specs.Sections.{LeavesMarkAt, MarkedOn, MarkedRun};

use draid_session::Decides;

/// Law: over a shelf that tells what it holds, lines are answered as a book has it that has a checkpoint: `rewind` gives each
/// object back as it was when the checkpoint was made, and an import finds the checkpoint of its group. The book is blank
/// where there is no pool.
pub fn sessions_keep_the_marked_book<D: Decides>(decider: &D)
    ensures from_blank { (lines : List (List ℕ)) (replies : List (List Said)) (journal : List Entry) (last : Sitting)
        → Runs (D.choices decider.now) IsAnything true (sits Bare journal) lines replies last
        → (m : Marked) × MarkedAll (unmarked blank) lines replies m }

    ensures bare { KeepsMarked Bare (unmarked blank) }
    ensures made { (failed : ℕ) (geometry : Geometry) → KeepsMarked (Made true failed geometry) (unmarked blank) }
    ensures goes_on { (lines : List (List ℕ)) (replies : List (List Said)) (old new : Sitting) (m : Marked)
        → KeepsMarked old.desk m → Runs (D.choices decider.now) IsAnything true old lines replies new
        → (later : Marked) × MarkedAll m lines replies later × KeepsMarked new.desk later }
{}

/// Law: so are lines with sections. A section runs where no checkpoint stands, and there is none behind it.
pub fn marked_sections_keep_the_book<D: Decides>(decider: &D)
    ensures { (lines : List (List ℕ)) (replies : List (List Said)) (to : Place) (old new : Sitting) (m : Marked)
        → KeepsMarked old.desk m → RunsOn (D.choices decider.now) IsAnything true Outside old lines replies to new
        → (later : Marked) × MarkedOn Outside m lines replies to later × KeepsMarked new.desk later }
{}

/// Law: the end of a run is as such a book has it too: where a device fails in a command, and where a pool that is open is
/// given back.
pub fn marked_endings_keep_the_book()
    ensures breaks { (cause : Cause) (old new : Desk) (m : Marked) (command : Command)
        → KeepsMarked old m → Breaks cause old command new → Agrees true new → (later : Marked) × MarkedBreaks m command later × KeepsMarked new later }
    ensures left { (desk : Desk) (m : Marked) → KeepsMarked desk m → KeepsMarked (left_of desk) (shut_up m) }
{}

/// Law: what follows of that. Behind a `checkpoint` whatever is found has a checkpoint of the objects that there were, behind
/// lines and behind whole runs that neither give it up nor make a pool; and behind a `rewind` there are just these.
pub fn checkpoints_stand()
    ensures made { (old new : Marked) (group : ℕ) → old.book.is_open ≡ true → MarkedAnswers old TakeCheckpoint (Reply.Checkpointed group) new → HasMark old.book.now new }
    ensures lines { (objects : Objects) (lines : List (List ℕ)) (replies : List (List Said)) (from to : Place) (old new : Marked)
        → HasMark objects old → AllOf LeavesMark lines → MarkedOn from old lines replies to new → HasMark objects new }
    ensures runs { (objects : Objects) (lines : List (List ℕ)) (replies : List (List Said)) (to : Place) (broken : Option (List ℕ)) (saids : List Said) (old new : Marked)
        → HasMark objects old → AllOf LeavesMark lines → LeavesMarkAt broken → MarkedRun old lines replies to broken saids new → HasMark objects new }
    ensures rewound { (objects : Objects) (old new : Marked) (group many : ℕ)
        → HasMark objects old → old.book.is_open ≡ true → MarkedAnswers old RewindPool (Reply.Rewound group many) new → (object : ℕ) → new.book.now object ≡ objects object }
{}

/// Law: so a rewind gives each object back as it was when the checkpoint was made, whatever lines come between that neither
/// give the checkpoint up nor make a pool: crashes, exports, imports and sections among them.
pub fn marked_lines_go_back()
    ensures { (lines : List (List ℕ)) (replies : List (List Said)) (old first mid new : Marked) (group later many : ℕ)
        → old.book.is_open ≡ true → MarkedAnswers old TakeCheckpoint (Reply.Checkpointed group) first → AllOf LeavesMark lines → MarkedOn Outside first lines replies Outside mid
        → mid.book.is_open ≡ true → MarkedAnswers mid RewindPool (Reply.Rewound later many) new → (object : ℕ) → new.book.now object ≡ old.book.now object }
{}
