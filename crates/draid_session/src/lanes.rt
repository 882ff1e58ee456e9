//! Laws of what lanes do side by side, each said by what their own holds see.
ghost use Rattle.std.specs.Prelude.{◌≡◌, ◌<◌, ℕ, List, Some, map};
ghost use Rattle.draid_spec.specs.declared.layout.Geometry.{Geometry};
ghost use Rattle.draid_perm.specs.declared.perms.Perms.{Perms};
ghost use Rattle.draid_objects.specs.Changes.{Write, write_of};
ghost use Rattle.draid_reply.specs.declared.reply.Reply.{Reply};
ghost use Rattle.draid_script.specs.Line.{Command, ReadObject};
ghost use Rattle.draid_session.specs.Does.{Does};
ghost use Rattle.draid_session.specs.Holds.{Hold};
ghost use Rattle.draid_session.specs.Lanes.{Lane, Section};
ghost use Rattle.draid_session.specs.LanesCalm.{AreCalmLanes, FetchesReadable, ReadsOwn, TellsNoError};
ghost use Rattle.draid_session.specs.Looks.{AllOf};
ghost use Rattle.draid_session.specs.Making.{content_of};
ghost use Rattle.draid_session.specs.Phases.{End};
ghost use Rattle.draid_session.specs.Present.{AreReached, LeavesPresent};
ghost use Rattle.draid_session.specs.State.{State, Store};
ghost use Rattle.draid_session.specs.Undisturbed.{HaveNoErrors, WentWell};
ghost use Rattle.draid_session.specs.Waiting.{ReadiesIn, WaitsForThree};

use crate::decides::Decides;

/// Law: in a section a group leaves the log of an arm only once each segment of a block that was born in it is present
/// there, in each hold of each lane, whatever holds of other lanes came between. Behind the section, too, legal histories
/// give the states of the metaslabs.
pub fn lanes_leave_logs_once_present<D: Decides>(decider: &D)
    ensures { (commands : List (List Command)) (replies : List (List Reply)) (old new : State) → (it : Section old (D.choices decider.now) commands replies new)
        → AreReached old → AllOf (λ (lane : Lane old (D.choices decider.now)). AllOf (LeavesPresent old.geometry old.perms) lane.holds) it.lanes × AreReached new }
{}

/// Law: whoever reads an object gives the bytes of its own last write, by their number and digest, where the hold that
/// fetches the block sees that the rack tells harm and no more columns of it are bad than there are parity columns. Else
/// the metaslab is worn, or memory is wanting.
pub fn readable_fetches_give_bytes<D: Decides>(decider: &D)
    ensures { (geometry : Geometry) (perms : Perms) (object : ℕ) (reply : Reply) (old new : Store) (holds : List Hold) (w : Write)
        → Does geometry perms (D.choices decider.now) content_of (ReadObject object) old holds reply new → write_of old.changes object ≡ Some w
        → AllOf (FetchesReadable geometry perms w) holds → ReadsOwn geometry w object holds reply }
{}

/// Law: the rebuilds and scrubs of a section count no error and lose no target, and an ended one made each good, where no
/// hold of any lane disturbs a pass, and none had an error as the section came.
pub fn undisturbed_lanes_are_whole<D: Decides>(decider: &D)
    ensures errors { (commands : List (List Command)) (replies : List (List Reply)) (old new : State) → (it : Section old (D.choices decider.now) commands replies new)
        → HaveNoErrors old → AreCalmLanes old (D.choices decider.now) it.lanes commands replies it.ran → AllOf (AllOf TellsNoError) replies }
    ensures targets { (commands : List (List Command)) (replies : List (List Reply)) (old new : State) → (it : Section old (D.choices decider.now) commands replies new)
        → HaveNoErrors old → AreCalmLanes old (D.choices decider.now) it.lanes commands replies it.ran → AllOf (λ (lane : Lane old (D.choices decider.now)). AllOf WentWell lane.holds) it.lanes }
{}

/// Law: a rebuild that a lane finds in a metaslab runs behind at most three of that lane's syncs, or one of these is
/// stopped, where no other lane plans or ends a pass; also where other lanes' writes are under way.
pub fn lanes_wait_for_three_syncs<D: Decides>(decider: &D)
    ensures { (commands : List (List Command)) (replies : List (List Reply)) (old new : State) (i m : ℕ) (holds : List Hold) (end : End)
        → (it : Section old (D.choices decider.now) commands replies new) → AreReached old → m < old.geometry.props.metaslabs
        → ReadiesIn old (map (λ (lane : Lane old (D.choices decider.now)). lane.holds) it.lanes) i m holds end → WaitsForThree old m holds end }
{}
