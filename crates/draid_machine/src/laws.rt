ghost use Rattle.std.specs.Prelude.{◌≡◌, ◌||◌, ◌⊎◌, List, ℕ, Some, true, false, Vec};
ghost use Rattle.std.specs.declared.alloc.Global.{Global};
ghost use Rattle.draid_machine.specs.Concerns.{is_freed, is_opening, object_of};
ghost use Rattle.draid_machine.specs.Created.{IsReached, created};
ghost use Rattle.draid_machine.specs.Step.{HasWritten, IsWhole, Run, Step};
ghost use Rattle.draid_machine.specs.Doubt.{DoubtsBy};
ghost use Rattle.draid_machine.specs.After.{has_healed};
ghost use Rattle.draid_machine.specs.Arms.{is_clean, is_silent, lies_on};
ghost use Rattle.draid_machine.specs.Claims.{is_on};
ghost use Rattle.draid_machine.specs.declared.event.Patched.{Patched};
ghost use Rattle.draid_machine.specs.declared.names.ArmName.{ArmName};
ghost use Rattle.draid_machine.specs.declared.names.Held.{Held};
ghost use Rattle.draid_machine.specs.declared.event.Event.{Event};
ghost use Rattle.draid_machine.specs.declared.event.Event.TheVariants.{Commit, Done, LandBlock, LandStripe, Reopen, Seal};
ghost use Rattle.draid_machine.specs.declared.names.Key.{Key};
ghost use Rattle.draid_machine.specs.declared.names.Segment.{Segment};
ghost use Rattle.draid_machine.specs.Fitting.{Fitting, KeepsFresh, KeepsLogs, LoanReads};
ghost use Rattle.draid_machine.specs.Images.{ImagesStand, IsImage, IsThere, LiesAt, Owned};
ghost use Rattle.draid_machine.specs.Sound.{LogSound, LogsWithin, Sound};
ghost use Rattle.draid_machine.specs.Mended.{IsMade, IsTrusted};
ghost use Rattle.draid_machine.specs.State.{Arm, Image, IsLayout, Layout, Loan, Pass, State};
ghost use Rattle.draid_machine.specs.After.{ended_pass};
ghost use Rattle.draid_machine.specs.Arms.{HasEmptyLog};
ghost use Rattle.draid_machine.specs.Names.{has_name};
ghost use Rattle.draid_names.specs.declared.pass_kind.PassKind.TheVariants.{Rebuild};

/// Law: after every legal history of a new metaslab, with failures, passes, loans that are out, crashes
/// and openings anywhere, its logs are sound.
#[tactic(auto, using(crate::proofs::Rows::every_history))]
pub fn every_history_is_sound()
    ensures logs { (layout : Layout) (state : State) → IsLayout layout → IsReached layout state
        → LogSound layout state }
    ensures kept { (layout : Layout) (state : State) → IsLayout layout → IsReached layout state
        → Sound layout state }
    ensures groups { (layout : Layout) (state : State) → IsLayout layout → IsReached layout state
        → LogsWithin state }
{}

/// Law: after every legal history of a new metaslab, what the committed image claims, and a sealed one, is
/// present, and its blocks and arms are still there; and nothing is present but segments of blocks, and of
/// columns that tickets have put, at the places of their arms, or where they lay before and are kept until
/// a commit.
#[tactic(auto, using(crate::proofs::Standing::every_image))]
pub fn images_stand()
    ensures images { (layout : Layout) (state : State) → IsLayout layout → IsReached layout state
        → ImagesStand layout state }
    ensures segments { (layout : Layout) (state : State) → IsLayout layout → IsReached layout state
        → Owned layout state }
{}

/// Law: after every legal history of a new metaslab, no two segments lie on one sector of a leaf, each of
/// them present, or at a place of a block or a ticket.
#[tactic(auto)]
pub fn segments_lie_apart()
    ensures { (layout : Layout) (state : State) (one other : Segment) (leaf sector : ℕ)
        → IsLayout layout → IsReached layout state
        → IsThere layout state one → IsThere layout state other
        → LiesAt layout state.core one leaf sector → LiesAt layout state.core other leaf sector → one ≡ other }
{}

/// Law: after every legal history of a new metaslab, it and its images can be written as records: numbers
/// are in range, a pass has the last number, stands within the metaslab, and has its targets in the order of
/// the slots; each slot has a leaf and at most three arms; versions are 1 or 2, and no more is held than
/// they allow.
pub fn every_state_fits()
    ensures { (layout : Layout) (state : State) → IsLayout layout → IsReached layout state
        → Fitting layout state }
{}

/// Law: after every legal history of a new metaslab, the arms that the loan that counts was read from are
/// arms of their columns' slots, and what a rebuild copies from is present.
pub fn loans_read_what_is_there()
    ensures { (layout : Layout) (state : State) (loan : Loan) → IsLayout layout → IsReached layout state
        → state.loan ≡ Some loan → LoanReads layout state loan }
{}

/// Law: a legal event takes a group out of an arm's log only where a pass ends without errors that had the
/// arm among its targets, where the arm comes to lie elsewhere, or where the metaslab is opened again.
pub fn logs_are_kept()
    ensures { (layout : Layout) (state new : State) (event : Event) → IsLayout layout
        → IsReached layout state → Step layout state event new → KeepsLogs layout state event new }
{}

/// Law: an arm that is fresh stays so under each legal event but the end of a pass that ran without errors and had the
/// arm among its targets, and an opening.
pub fn arms_stay_fresh()
    ensures { (layout : Layout) (state new : State) (event : Event) → IsLayout layout
        → Step layout state event new → KeepsFresh state event new }
{}

/// Law: a seal keeps the pass in the image that it makes, a commit takes over that image, and an opening
/// goes on with the pass of the image of its group: with its targets, its max, and the stripe where it
/// stood.
pub fn images_keep_passes()
    ensures seal { (layout : Layout) (state new : State) (group : ℕ) (failed : Vec ℕ Global)
        → Step layout state (Seal group failed) new
        → (image : Image) × (new.sealed ≡ Some image) × (image.core.pass ≡ new.core.pass) }
    ensures commit { (layout : Layout) (state new : State) (group : ℕ)
        → Step layout state (Commit group) new → state.sealed ≡ Some new.image }
    ensures opening { (layout : Layout) (state new : State) (group : ℕ) (doubtful : Vec Segment Global)
        → IsLayout layout → IsReached layout state → Step layout state (Reopen group doubtful) new
        → IsImage state new.image × (new.image.group ≡ group) × (new.core.pass ≡ new.image.core.pass) }
{}

/// Law: in each state that a legal history gives, a legal event has one result, and so has the history.
#[tactic(auto)]
pub fn events_have_one_result()
    ensures step { (layout : Layout) (state new other : State) (event : Event) → IsLayout layout
        → IsReached layout state → Step layout state event new → Step layout state event other → new ≡ other }
    ensures history { (layout : Layout) (version : ℕ) (new other : State) (events : List Event) → IsLayout layout
        → (version ≡ 1) ⊎ (version ≡ 2) → Run layout (created layout version) events new
        → Run layout (created layout version) events other → new ≡ other }
{}

/// Law: a legal event that is no opening leaves the tickets and live blocks of the objects that it doesn't
/// concern as they are, and brings none of them. A freed block may go at a commit.
pub fn events_leave_other_objects()
    ensures { (layout : Layout) (state new : State) (event : Event) (key : Key) → Step layout state event new
        → is_opening event ≡ false → (object_of event ≡ Some key.object → ⊥) → is_freed (state.core.held key) ≡ false
        → new.core.held key ≡ state.core.held key }
{}

/// Law: where the loan of a rebuild comes back, its segments on targets that answer, and on which no call
/// failed, are present and not in doubt, if enough columns had a source and no reading that was chosen was
/// in doubt.
pub fn rebuilds_end_doubt()
    ensures { (layout : Layout) (state new : State) (pass serial : ℕ) (failed : Vec ℕ Global) (loan : Loan) (segment : Segment)
        → Step layout state (LandStripe pass serial failed) new → state.loan ≡ Some loan
        → IsMade layout state loan failed.items segment → IsTrusted layout state loan segment
        → (new.present segment ≡ true) × (new.aside segment ≡ false) }
{}

/// Law: behind the end of a rebuild without errors each target that it had has missed nothing: its log is empty.
pub fn rebuilds_empty_logs()
    ensures { (layout : Layout) (state new : State) (failed : Vec ℕ Global) (pass : Pass) (name : ArmName) → IsLayout layout
        → IsReached layout state → Step layout state (Done failed) new → state.core.pass ≡ Some pass → pass.kind ≡ Rebuild
        → (ended_pass layout state.core pass failed.items).errors ≡ 0 → has_name pass.targets name ≡ true → HasEmptyLog new.core name }
{}

/// Law: after every legal history of a new metaslab, an arm that is fresh has the first group in its log; so one that has
/// missed nothing isn't fresh.
pub fn fresh_arms_miss_the_first_group()
    ensures { (layout : Layout) (state : State) (name : ArmName) (arm : Arm) → IsLayout layout → IsReached layout state
        → state.core.arm name ≡ Some arm → arm.fresh ≡ true → arm.log 1 ≡ true }
{}

/// Law: a segment comes to be in doubt only as a block that a scrub restored lands, as a rebuild's stripe lands that was made of
/// something in doubt, or by an opening that names it.
pub fn doubts_have_causes()
    ensures { (layout : Layout) (state new : State) (event : Event) (segment : Segment)
        → Step layout state event new → DoubtsBy layout state event new segment }
{}

/// Law: a whole landing of a scrub ends the doubt of its block's segments on arms that are clean for it, and of what landed.
pub fn scrubs_end_doubt()
    ensures { (layout : Layout) (state new : State) (pass serial : ℕ) (failed : Vec ℕ Global) (patched : Vec Patched Global)
        (loan : Loan) (held : Held) (segment : Segment)
        → Step layout state (LandBlock pass serial failed patched false) new → state.loan ≡ Some loan
        → state.core.held loan.key ≡ Some held → IsWhole layout state.core held failed.items → loan.key ≡ segment.key
        → is_on layout state.core.order segment held ≡ true
        → (is_clean state.core held.birth segment.arm || has_healed layout state.core loan held patched.items segment) ≡ true
        → new.aside segment ≡ false }
{}

/// Law: a seal of a group in which a block was written puts it into the log of each arm that lies on a silent leaf: one that is
/// offline, or on which a flush failed.
pub fn seals_log_silent_arms()
    ensures { (layout : Layout) (state new : State) (group : ℕ) (failed : Vec ℕ Global) (name : ArmName) (arm : Arm)
        → Step layout state (Seal group failed) new → HasWritten state.core group → state.core.arm name ≡ Some arm
        → lies_on layout state.core (is_silent state.core failed.items) name ≡ true
        → (later : Arm) × (new.core.arm name ≡ Some later) × (later.log group ≡ true) }
{}
