ghost use Rattle.std.specs.Prelude.{◌≡◌, ◌+◌, ◌<◌, ◌≤◌, ℕ, Bool, [], false, true, List, Option, Some, String, length, slice_get, All, ◌⊎◌};
ghost use Rattle.std.specs.declared.alloc.Global.{Global as Heap};
ghost use Rattle.std.specs.declared.vec.Vec.{Vec};
ghost use Rattle.draid_names.specs.declared.pass_kind.PassKind.TheVariants.{Rebuild};
ghost use Rattle.draid_spec.specs.declared.layout.Geometry.{Geometry};
ghost use Rattle.draid_perm.specs.declared.perms.Perms.{Perms};
ghost use Rattle.draid_machine.specs.Arms.{HasEmptyLog};
ghost use Rattle.draid_map.specs.Place.{IsLayout};
ghost use Rattle.draid_machine.specs.State as machine;
ghost use Rattle.draid_machine.specs.declared.names.ArmName.{ArmName};
ghost use Rattle.draid_names.specs.declared.journal.Entry.{Entry};
ghost use Rattle.draid_objects.specs.Changes.{Write, write_of, group_of};
ghost use Rattle.draid_reply.specs.declared.reply.AgentErrors.{AgentErrors};
ghost use Rattle.draid_reply.specs.declared.reply.Reply.{Reply};
ghost use Rattle.draid_script.specs.Line.{Command, CrashPool, FreeObject, ImportPool, ReadObject, RebuildPool, RunAgent, ScrubPool, ShowStatus, SyncPool, WriteObject, RewindPool, TakeCheckpoint};
ghost use Rattle.draid_script.specs.declared.line.StatusFormat.{StatusFormat};
ghost use Rattle.draid_session.specs.Agent.{AreNumbered};
ghost use Rattle.draid_session.specs.Bearing.{AreIdle, AreUnhurt, AreWholeAgain, FailsNoCall, FailsNoFetch, GoOffline, HaveFewBroken, HaveNoPass, IsPoolWhole, IsSteady, IsWanted, IsWholeBut, Failure, OutlivesAll, ShowsWholeBut, Uses};
ghost use Rattle.draid_objects.specs.Marks.{Mark};
ghost use Rattle.draid_session.specs.Checkpoints.{GoesBackTo};
ghost use Rattle.draid_script.specs.Writing.{IsForLanes};
ghost use Rattle.draid_session.specs.Book.{Answers, AnswersAll, Book, BreaksBook, HaveBeen, Objects, blank, closed};
ghost use Rattle.draid_session.specs.Certain.{EndsFailed, EnoughAnswer, FailsNoPut, HasPlace, MayFinish, MaySync, ReadsLast, StaysReadable, SyncsBehind, SyncsNext, WritesOnce};
ghost use Rattle.draid_session.specs.Everywhere.{ArmsChange, ArmsStay, IsOnArms};
ghost use Rattle.draid_session.specs.Follows.{Follows};
ghost use Rattle.draid_session.specs.Holds.{Hold, View, layout_at};
ghost use Rattle.draid_session.specs.Keeping.{Keeps, bytes_in};
ghost use Rattle.draid_session.specs.Lanes.{IsMerged, TogetherAt, Section};
ghost use Rattle.draid_session.specs.LaneBook.{AnswersSection, AreBeginnings};
ghost use Rattle.draid_session.specs.Places.{Outside, Place};
ghost use Rattle.draid_session.specs.Sections.{BookOn, RunsOn};
ghost use Rattle.draid_session.specs.Looks.{AllOf, Looks};
ghost use Rattle.draid_session.specs.Making.{IsFresh};
ghost use Rattle.draid_session.specs.Marked.{HasMark, LeavesMark, Marked, MarkedAll, MarkedAnswers};
ghost use Rattle.draid_session.specs.Opening.{Imports};
ghost use Rattle.draid_session.specs.Passes.{ReadyPhase};
ghost use Rattle.draid_session.specs.Phases.{End};
ghost use Rattle.draid_session.specs.Present.{AreReached, DeskReached, LeavesPresent};
ghost use Rattle.draid_session.specs.Reads.{ReadsAs};
ghost use Rattle.draid_session.specs.Resuming.{IsFirstRebuilt, TakesUpPass, stands_at};
ghost use Rattle.draid_session.specs.Rewinding.{GoesBackIn, MakesCheck, RunsBeside};
ghost use Rattle.draid_session.specs.Rooms.{FitsNowhere, stripes_for};
ghost use Rattle.draid_session.specs.Said.{Said};
ghost use Rattle.draid_session.specs.Session.{Agrees, Bare, Breaks, BreaksOpen, CarriesOut, Cause, Desk, IsAnything, Made, Open, RecordFails, Runs, Sitting, left_of, sits};
ghost use Rattle.draid_session.specs.State.{Metaslab, State, Store};
ghost use Rattle.draid_session.specs.Staying.{MakesNoPool, Stays};
ghost use Rattle.draid_session.specs.Undisturbed.{HaveNoErrors, IsCalmInScrub, IsUndisturbed, WentWell};
ghost use Rattle.draid_session.specs.Waiting.{HasRebuild, WaitsForThree};
ghost use Rattle.draid_session.specs.Writes.{HasNoSpace};

use crate::decides::Decides;
use std::alloc::Global;

/// Law: where a block finds no space, each metaslab was looked at, and one that takes blocks has no run that it fits.
pub fn no_space_means_no_room()
    ensures { (geometry : Geometry) (perms : Perms) (bytes : List ℕ) (run disabled full worn : ℕ) (holds : List Hold)
        → 0 < stripes_for geometry bytes → HasNoSpace geometry perms bytes run disabled full worn holds
        → (views : List View) × Looks geometry.props.metaslabs holds views
        × AllOf (FitsNowhere geometry perms (stripes_for geometry bytes)) views }
{}

/// Law: a read of an object that was written gives the bytes of its last write, by their number and digest, where the
/// metaslab's rack tells harm and no more columns of the block are bad than there are parity columns. Else the metaslab
/// is worn, or memory is wanting.
pub fn readable_objects_are_read<D: Decides>(decider: &D)
    ensures { (object : ℕ) (reply : Reply) (old new : State) (w : Write)
        → CarriesOut (D.choices decider.now) (ReadObject object) reply old new → write_of old.store.changes object ≡ Some w
        → StaysReadable old new w → ReadsLast old object w reply }
{}

/// Law: a write is done where a metaslab that takes blocks has a run which fits, of all columns but at most as many as there
/// are parity columns an arm of the column's slot answers, and no put fails. Else the last number of a write is used up, or
/// memory is wanting.
pub fn writes_that_fit_are_done<D: Decides>(decider: &D)
    ensures { (object : ℕ) (bytes : List ℕ) (reply : Reply) (old new : State)
        → (it : CarriesOut (D.choices decider.now) (WriteObject object bytes) reply old new)
        → HasPlace old (stripes_for old.geometry bytes) → EnoughAnswer old → AllOf FailsNoPut it.holds → WritesOnce old object reply }
{}

/// Law: a sync commits the group behind the committed one where no group is closing, each metaslab has room for the events
/// of a closing, and that group hasn't the last number. Else memory is wanting.
pub fn idle_pools_are_synced<D: Decides>(decider: &D)
    ensures { (reply : Reply) (old new : State) → CarriesOut (D.choices decider.now) SyncPool reply old new → MaySync old → SyncsNext old reply }
{}

/// Law: where a group is closing, each metaslab that doesn't close it yet has room for the events of a closing, and it
/// hasn't the last number, a sync commits it; and the reply is of the group behind it. Else memory is wanting.
pub fn closing_groups_are_synced<D: Decides>(decider: &D)
    ensures { (reply : Reply) (old new : State) (book : Book) → CarriesOut (D.choices decider.now) SyncPool reply old new
        → Keeps (Open old) book → MayFinish old → SyncsBehind old reply new }
{}

/// Law: a command that changes arms does so by one event in each metaslab where its reply says that it is done, and by none
/// where it was refused; a detachment stands whose sync was refused.
pub fn arms_change_everywhere_or_nowhere<D: Decides>(decider: &D)
    ensures answered { (command : Command) (reply : Reply) (old new : State) → (it : CarriesOut (D.choices decider.now) command reply old new)
        → IsOnArms command → ArmsChange old.geometry command reply it.holds }
    ensures broken { (command : Command) (old new : State) → (it : BreaksOpen command old new) → IsOnArms command → ArmsStay old.geometry command it.holds }
{}

/// Law: a command breaks off on an open pool where a count rose in its last hold: of an area, or in a replacement of a rack
/// as a whole.
pub fn broken_commands_end_failed()
    ensures { (command : Command) (old new : State) → (it : BreaksOpen command old new) → EndsFailed command it.holds old it.mid }
{}

/// Law: however the holds of lanes are interleaved, where they follow one another they are those of lanes beside each
/// other.
#[tactic(auto, using(crate::proofs::Beside::interleave))]
pub fn lanes_may_interleave()
    ensures { (old new : State) (lanes : List (List Hold)) (holds : List Hold) (lock : Option ℕ) → IsMerged lanes holds → Follows holds old new
        → TogetherAt lock lanes old new }
{}

/// Law: over a shelf that tells what it holds, lines are answered as a book has it: which objects there are, with their
/// bytes, what a group keeps of them, and what an import finds. It is blank where there is no pool.
pub fn sessions_keep_the_book<D: Decides>(decider: &D)
    ensures from_blank { (lines : List (List ℕ)) (replies : List (List Said)) (journal : List Entry) (last : Sitting)
        → Runs (D.choices decider.now) IsAnything true (sits Bare journal) lines replies last
        → (book : Book) × AnswersAll blank lines replies book }

    ensures bare { Keeps Bare blank }
    ensures made { (failed : ℕ) (geometry : Geometry) → Keeps (Made true failed geometry) blank }
    ensures goes_on { (lines : List (List ℕ)) (replies : List (List Said)) (old new : Sitting) (book : Book)
        → Keeps old.desk book → Runs (D.choices decider.now) IsAnything true old lines replies new
        → (later : Book) × AnswersAll book lines replies later × Keeps new.desk later }
{}

/// Law: over a shelf that tells what it holds, a section is answered as a book has it, whichever of their commands its
/// lanes have, and so are lines with sections: each lane as by a book of its own, and what the lanes did in some order, that
/// of each lane as it did it.
pub fn sections_keep_the_book<D: Decides>(decider: &D)
    ensures section { (commands : List (List Command)) (replies : List (List Reply)) (old new : State) (book : Book)
        → AllOf (AllOf IsForLanes) commands → Keeps (Open old) book → Section old (D.choices decider.now) commands replies new
        → (later : Book) × AnswersSection book commands replies later × Keeps (Open new) later }
    ensures lines { (lines : List (List ℕ)) (replies : List (List Said)) (to : Place) (old new : Sitting) (book : Book)
        → Keeps old.desk book → RunsOn (D.choices decider.now) IsAnything true Outside old lines replies to new
        → (later : Book) × BookOn Outside book lines replies to later × Keeps new.desk later }
{}

/// Law: of each lane of a section a group keeps a beginning. What an import may find behind a section is what it might have
/// found before it; or the objects as they are behind a beginning of what each lane did.
pub fn sections_keep_beginnings()
    ensures { (commands : List (List Command)) (replies : List (List Reply)) (old new : Book) (objects : Objects) → (it : AnswersSection old commands replies new)
        → HaveBeen new objects → HaveBeen old objects ⊎ AreBeginnings old.now it.deeds objects }
{}

/// Law: the end of a run is as a book has it too: where a device fails in a command, and where a pool that is open is given
/// back. No run that keeps a book ends by a fault in a record.
pub fn endings_keep_the_book()
    ensures breaks { (cause : Cause) (old new : Desk) (book : Book) (command : Command)
        → Keeps old book → Breaks cause old command new → Agrees true new → (later : Book) × BreaksBook book command later × Keeps new later }
    ensures records { (old new : Desk) (book : Book) (command : Command) → Keeps old book → Breaks RecordFails old command new → ⊥ }
    ensures left { (desk : Desk) (book : Book) → Keeps desk book → Keeps (left_of desk) (closed book) }
{}

/// Law: what follows of a book. An object is read as it was written last, and isn't where it was freed. Behind a sync, a
/// crash and an import all objects are as they were at the sync; and behind any import all are as they were at one time
/// since the last group that a reply named.
pub fn books_give_back_what_was_kept()
    ensures written { (object o p : ℕ) (bytes : List ℕ) (read : Vec ℕ Heap) (old mid new : Book)
        → old.is_open ≡ true → Answers old (WriteObject object bytes) (Reply.Written o) mid
        → Answers mid (ReadObject object) (Reply.Contents p read) new → ReadsAs bytes read.items }
    ensures freed { (object o p : ℕ) (read : Vec ℕ Heap) (old mid new : Book)
        → old.is_open ≡ true → Answers old (FreeObject object) (Reply.Freed o) mid
        → Answers mid (ReadObject object) (Reply.Contents p read) new → ⊥ }
    ensures synced { (group thin found many : ℕ) (called : String Heap) (old mid left new : Book)
        → old.is_open ≡ true → Answers old SyncPool (Reply.Synced group thin) mid → Answers mid CrashPool (Reply.Crashed) left
        → Answers left ImportPool (Reply.Imported called found many) new
        → (found ≡ group) × ((object : ℕ) → new.now object ≡ old.now object) }
    ensures imported { (found many : ℕ) (called : String Heap) (old new : Book)
        → old.is_open ≡ false → Answers old ImportPool (Reply.Imported called found many) new → HaveBeen old new.now }
{}

/// Law: a rebuild counts no error, loses no target and makes each good, where no call fails, each leaf on which a target
/// lies answers, each stripe that lands has enough sources, and no pass had an error when it came.
pub fn undisturbed_rebuilds_are_whole<D: Decides>(decider: &D)
    ensures errors { (limit : Option ℕ) (from stripes errors : ℕ) (paused : Bool) (old new : State)
        → (it : CarriesOut (D.choices decider.now) (RebuildPool limit) (Reply.Rebuilt from stripes errors paused) old new)
        → HaveNoErrors old → AllOf (IsUndisturbed old.geometry old.perms) it.holds → errors ≡ 0 }
    ensures targets { (limit : Option ℕ) (reply : Reply) (old new : State)
        → (it : CarriesOut (D.choices decider.now) (RebuildPool limit) reply old new)
        → HaveNoErrors old → AllOf (IsUndisturbed old.geometry old.perms) it.holds → AllOf WentWell it.holds }
{}

/// Law: a scrub counts no error, loses no target and makes each good, where no call fails, each leaf on which a target
/// lies answers, no pass had an error when it came, and where by the harm that was told each block that it lends has at most
/// as many bad columns as there are parity columns.
pub fn undisturbed_scrubs_are_whole<D: Decides>(decider: &D)
    ensures errors { (limit : Option ℕ) (from blocks repaired errors : ℕ) (paused : Bool) (old new : State)
        → (it : CarriesOut (D.choices decider.now) (ScrubPool limit) (Reply.Scrubbed from blocks repaired errors paused) old new)
        → HaveNoErrors old → AllOf (IsCalmInScrub old.geometry old.perms) it.holds → errors ≡ 0 }
    ensures targets { (limit : Option ℕ) (reply : Reply) (old new : State)
        → (it : CarriesOut (D.choices decider.now) (ScrubPool limit) reply old new)
        → HaveNoErrors old → AllOf (IsCalmInScrub old.geometry old.perms) it.holds → AllOf WentWell it.holds }
{}

/// Law: the entries of a run's journal are numbered from 1 on, whatever becomes of its pools.
#[tactic(auto, using(crate::proofs::Numbered::runs_numbered))]
pub fn journals_are_numbered<D: Decides>(decider: &D)
    ensures { (tells : Bool) (lines : List (List ℕ)) (replies : List (List Said)) (old new : Sitting)
        → Runs (D.choices decider.now) IsAnything tells old lines replies new → AreNumbered 1 old.journal → AreNumbered 1 new.journal }
{}

/// Law: in a session a group leaves the log of an arm only once each segment of a block that was born in it is present
/// there. So it is in each hold of a command, where legal histories give the states of the metaslabs that it finds; and
/// they give those that it leaves, so that this is so behind each line.
pub fn groups_leave_logs_once_present<D: Decides>(alloc: Global, decider: &D)
    ensures answered { (command : Command) (reply : Reply) (old new : State) → (it : CarriesOut (D.choices decider.now) command reply old new)
        → AreReached old → AllOf (LeavesPresent old.geometry old.perms) it.holds × AreReached new }
    ensures broken { (command : Command) (old new : State) → (it : BreaksOpen command old new)
        → AreReached old → AllOf (LeavesPresent old.geometry old.perms) it.holds × AreReached new }
    ensures lines { (tells : Bool) (lines : List (List ℕ)) (replies : List (List Said)) (old new : Sitting)
        → Runs (D.choices decider.now) IsAnything tells old lines replies new → DeskReached old.desk → DeskReached new.desk }
    ensures breaks { (cause : Cause) (old new : Desk) (command : Command) → Breaks cause old command new → DeskReached old → DeskReached new }
    ensures left { (desk : Desk) → DeskReached desk → DeskReached (left_of desk) }
{}

/// Law: an import takes up the pass of each image that it opens, with its targets, its last group, and the stripe where it
/// stood. And the first rebuild that a command comes to goes on where it stands.
pub fn rebuilds_go_on<D: Decides>(decider: &D)
    ensures imported { (old new : State) (group m : ℕ) (y z : Metaslab) → Imports old group new
        → slice_get old.metaslabs m ≡ Some y → slice_get new.metaslabs m ≡ Some z → TakesUpPass group y z }
    ensures rebuilt { (limit : Option ℕ) (from stripes errors : ℕ) (paused : Bool) (old new : State) (m : ℕ) (y : Metaslab) (p : machine.Pass)
        → CarriesOut (D.choices decider.now) (RebuildPool limit) (Reply.Rebuilt from stripes errors paused) old new
        → IsFirstRebuilt old m y p → from ≡ stands_at old m p }
{}

/// Law: a rebuild that is planned runs behind at most three syncs, or one of these is stopped, where no write is under way in
/// its metaslab and a legal history gives the state of that.
pub fn rebuilds_wait_for_three_syncs()
    ensures { (old new : State) (m : ℕ) (holds : List Hold) (end : End) → AreReached old → m < old.geometry.props.metaslabs → HasRebuild old m
        → ReadyPhase old.geometry old.perms Rebuild m holds end → Follows holds old new → WaitsForThree old m holds end }
{}

/// Law: a pool bears as many further disks offline as there are parity columns, less one for each slot that isn't whole. Of
/// such a pool each object that was written is read, where nothing is harmed or in doubt and no call fails in the read.
pub fn whole_slots_bear_failures<D: Decides>(decider: &D)
    ensures { (object : ℕ) (reply : Reply) (slots leaves : List ℕ) (x old new : State) (w : Write)
        → IsWholeBut slots [] x → GoOffline (D.choices decider.now) leaves x old → AreUnhurt old
        → length slots + length leaves ≤ x.geometry.spec.parity
        → CarriesOut (D.choices decider.now) (ReadObject object) reply old new → write_of old.store.changes object ≡ Some w
        → FailsNoFetch old new w → ReadsLast old object w reply }
{}

/// Law: a slot is whole in each metaslab where a `status` shows of it an arm with nothing logged, which is a spare or a disk
/// that isn't offline, and a spare or a first disk that isn't offline.
pub fn statuses_show_whole_slots<D: Decides>(decider: &D)
    ensures { (form : StatusFormat) (text : Vec ℕ Heap) (slots : List ℕ) (x z : State)
        → (it : CarriesOut (D.choices decider.now) (ShowStatus form) (Reply.Status text) x z) → IsSteady x
        → ShowsWholeBut slots it.does.1.view → IsWholeBut slots [] z }
{}

/// Law: behind a rebuild that is done without errors each arm of a slot that came new, or came to lie elsewhere, and is up,
/// has missed nothing in any metaslab, where no metaslab had a pass.
pub fn rebuilt_arms_miss_nothing<D: Decides>(decider: &D)
    ensures { (limit : Option ℕ) (from stripes m : ℕ) (name : ArmName) (x z : State) (y u : Metaslab)
        → CarriesOut (D.choices decider.now) (RebuildPool limit) (Reply.Rebuilt from stripes 0 false) x z
        → AreReached x → HaveNoPass x → m < x.geometry.props.metaslabs → slice_get x.metaslabs m ≡ Some y
        → slice_get z.metaslabs m ≡ Some u → IsWanted y.world.core name → HasEmptyLog u.world.core name }
{}

/// Law: behind an agent whose rebuild told no error each slot that got a spare is whole again in each metaslab: the spare has
/// missed nothing.
pub fn agents_make_slots_whole<D: Decides>(decider: &D)
    ensures { (least parity : ℕ) (entries : Vec Entry Heap) (errors : AgentErrors) (x z : State)
        → CarriesOut (D.choices decider.now) (RunAgent least) (Reply.Acted parity entries (Some errors)) x z
        → AreReached x → errors.rebuild ≡ 0 → AreWholeAgain entries.items z }
{}

/// Law: a pool in use outlives one failure after another, where each is rebuilt onto a spare of its slot: behind a rebuild
/// without errors each slot is whole again. So it bears as many further disks offline as there are parity columns: each object
/// that was written is read then. A new pool is such a one.
pub fn rebuilt_failures_are_borne<D: Decides>(decider: &D)
    ensures made { (geometry : Geometry) (x : State) → IsFresh geometry x → IsPoolWhole x }
    ensures whole { (failures : List Failure) (x z : State) → OutlivesAll (D.choices decider.now) failures x z
        → IsPoolWhole x → IsPoolWhole z }
    ensures used { (done : List (Command × Reply)) (x z : State) → Uses (D.choices decider.now) done x z
        → AreIdle z → IsPoolWhole x → IsPoolWhole z }
    ensures read { (object : ℕ) (reply : Reply) (failures : List Failure) (done : List (Command × Reply)) (leaves : List ℕ) (x mid later old new : State) (w : Write)
        → OutlivesAll (D.choices decider.now) failures x mid → IsPoolWhole x
        → Uses (D.choices decider.now) done mid later → AreIdle later
        → GoOffline (D.choices decider.now) leaves later old → AreUnhurt old → length leaves ≤ later.geometry.spec.parity
        → CarriesOut (D.choices decider.now) (ReadObject object) reply old new → write_of old.store.changes object ≡ Some w
        → FailsNoFetch old new w → ReadsLast old object w reply }
{}

/// Law: a rebuild has no errors where no metaslab had a pass, no call on a disk fails, and in each metaslab no more slots lack
/// an arm that is up and has missed nothing than there are parity columns.
pub fn few_broken_slots_are_rebuilt<D: Decides>(decider: &D)
    ensures { (limit : Option ℕ) (from stripes errors : ℕ) (x z : State)
        → (it : CarriesOut (D.choices decider.now) (RebuildPool limit) (Reply.Rebuilt from stripes errors false) x z)
        → IsLayout x.geometry x.perms → AreReached x → HaveNoPass x → HaveFewBroken x → AllOf FailsNoCall it.holds → errors ≡ 0 }
{}

/// Law: what a committed group keeps of the objects of a pool stays, whatever lines come but for one that makes a pool: over
/// passes, refused syncs, crashes and imports.
pub fn committed_groups_stay<D: Decides>(decider: &D)
    ensures { (lines : List (List ℕ)) (replies : List (List Said)) (x : State) (journal : List Entry) (new : Sitting) (book : Book)
        → Keeps (Open x) book → AllOf MakesNoPool lines → Runs (D.choices decider.now) IsAnything true (sits (Open x) journal) lines replies new → Stays x new.desk }
{}

/// Law: behind a rewind each object has just what it had as the checkpoint's group was committed, whatever lines came between.
pub fn rewinds_go_back<D: Decides>(decider: &D)
    ensures { (lines : List (List ℕ)) (replies : List (List Said)) (x y : State) (journal later : List Entry) (book : Book) (marks : List Mark) (group : ℕ) (new : Store)
        → Keeps (Open x) book → All (λ c. group_of c ≤ x.committed) x.store.changes → AllOf MakesNoPool lines
        → Runs (D.choices decider.now) IsAnything true (sits (Open x) journal) lines replies (sits (Open y) later)
        → (it : GoesBackTo marks group y.store new) → it.check.group ≡ x.committed → (object : ℕ) → write_of new.changes object ≡ write_of x.store.changes object }
{}

/// Law: behind a rewind each object has the bytes that it had as the checkpoint was made, whatever lines came between and
/// whatever blocks were dropped: over passes, refused syncs, crashes and imports.
pub fn checkpoints_come_back<D: Decides>(decider: &D)
    ensures { (lines : List (List ℕ)) (replies : List (List Said)) (x first y new : State) (book : Book) (marks made some left : List Mark) (group later : ℕ)
        → Keeps (Open x) book → MakesCheck (D.choices decider.now) x marks group first made → AllOf MakesNoPool lines
        → RunsBeside (D.choices decider.now) IsAnything true (Open first) made lines replies (Open y) some
        → GoesBackIn (D.choices decider.now) y some later new left → (object : ℕ)
        → bytes_in (write_of new.store.changes object) ≡ bytes_in (write_of x.store.changes object) }
{}

/// Law: what follows of a book with a checkpoint. A rewind gives each object back as it was when the checkpoint was made,
/// whatever lines come between that neither give the checkpoint up nor make a pool.
pub fn marked_books_go_back()
    ensures { (lines : List (List ℕ)) (replies : List (List Said)) (old first mid new : Marked) (group later many : ℕ)
        → old.book.is_open ≡ true → MarkedAnswers old TakeCheckpoint (Reply.Checkpointed group) first → AllOf LeavesMark lines → MarkedAll first lines replies mid
        → mid.book.is_open ≡ true → MarkedAnswers mid RewindPool (Reply.Rewound later many) new → (object : ℕ) → new.book.now object ≡ old.book.now object }
{}
