ghost use Rattle.std.specs.Prelude.{◌≡◌, ◌≤◌, ℕ, Bool, List, Option, Some, false};
ghost use Rattle.std.specs.declared.alloc.Global.{Global};
ghost use Rattle.std.specs.declared.vec.Vec.{Vec};
ghost use Rattle.draid_names.specs.declared.pass_kind.PassKind.TheVariants.{Heal};
ghost use Rattle.draid_spec.specs.declared.layout.Geometry.{Geometry};
ghost use Rattle.draid_perm.specs.declared.perms.Perms.{Perms};
ghost use Rattle.draid_machine.specs.After.{rewritten};
ghost use Rattle.draid_machine.specs.Created.{IsReached};
ghost use Rattle.draid_machine.specs.State as machine;
ghost use Rattle.draid_machine.specs.Step.{Step};
ghost use Rattle.draid_machine.specs.declared.event.Event.TheVariants.{LandBlock};
ghost use Rattle.draid_machine.specs.declared.event.Patched.{Patched};
ghost use Rattle.draid_machine.specs.declared.names.Held.{Held};
ghost use Rattle.draid_rack.specs.Rack.{Told};
ghost use Rattle.draid_reply.specs.declared.reply.Reply.{Reply};
ghost use Rattle.draid_script.specs.Line.{ScrubPool};
ghost use Rattle.draid_segments.specs.Acts.{Acts};
ghost use Rattle.draid_segments.specs.Segments.{Pieces};
ghost use Rattle.draid_session.specs.Holds.{Hold, layout_at};
ghost use Rattle.draid_session.specs.Landing.{FindsSound, HasCleanArms, IsUnhurtBlock, LeavesClean, ReadsRight, TakesClean, dirty_arms};
ghost use Rattle.draid_session.specs.Looks.{AllOf};
ghost use Rattle.draid_session.specs.Passes.{LendsOne};
ghost use Rattle.draid_session.specs.Present.{AreReached};
ghost use Rattle.draid_session.specs.Session.{CarriesOut};
ghost use Rattle.draid_session.specs.State.{State};
ghost use Rattle.draid_session.specs.Twice.{MayBeScrubbed};

use crate::decides::Decides;

/// Law: where each sector of a block reads as the restored block's on each arm that is clean for it, a scrub's landing
/// writes on none of these. It rewrites no more columns than there are arms that aren't clean, counted by arm.
pub fn right_blocks_are_left_alone()
    ensures clean { (layout : machine.Layout) (state new : machine.State) (pass serial : ℕ) (failed : Vec ℕ Global) (patched : Vec Patched Global) (pieces : Pieces) (x y : Told)
        (step : Step layout state (LandBlock pass serial failed patched false) new) → machine.IsLayout layout → IsReached layout state
        → Acts layout state (LandBlock pass serial failed patched false) new step pieces x y
        → ReadsRight layout state.core step.n step.h pieces x → LeavesClean state.core step.h patched.items }
    ensures few { (layout : machine.Layout) (state new : machine.State) (pass serial : ℕ) (failed : Vec ℕ Global) (patched : Vec Patched Global) (pieces : Pieces) (x y : Told)
        (step : Step layout state (LandBlock pass serial failed patched false) new) → machine.IsLayout layout → IsReached layout state
        → Acts layout state (LandBlock pass serial failed patched false) new step pieces x y
        → ReadsRight layout state.core step.n step.h pieces x
        → rewritten layout state.core step.h patched.items layout.columns ≤ dirty_arms layout state.core step.h layout.columns }
{}

/// Law: a scrub's landing rewrites no more columns than there are arms of the block's columns that aren't clean for it,
/// counted by arm, where by the harm that was told no segment of the block on a clean arm is harmed or in doubt, and each
/// column was taken from a clean arm. It rewrites none where each arm is clean.
pub fn sound_blocks_are_left_alone()
    ensures few { (geometry : Geometry) (perms : Perms) (m repaired : ℕ) (holds rest : List Hold) (n : machine.Loan) (h : Held)
        (one : LendsOne geometry perms Heal m repaired holds rest) → machine.IsLayout (layout_at geometry perms one.u) → IsReached (layout_at geometry perms one.u) one.u.world
        → Step (layout_at geometry perms one.u) one.u.world one.e one.landed → one.u.world.loan ≡ Some n → one.u.world.core.held n.key ≡ Some h
        → IsUnhurtBlock geometry perms one.u n h → TakesClean one.u.world.core n h
        → repaired ≤ dirty_arms (layout_at geometry perms one.u) one.u.world.core h geometry.g }
    ensures none { (geometry : Geometry) (perms : Perms) (m repaired : ℕ) (holds rest : List Hold) (n : machine.Loan) (h : Held)
        (one : LendsOne geometry perms Heal m repaired holds rest) → machine.IsLayout (layout_at geometry perms one.u) → IsReached (layout_at geometry perms one.u) one.u.world
        → Step (layout_at geometry perms one.u) one.u.world one.e one.landed → one.u.world.loan ≡ Some n → one.u.world.core.held n.key ≡ Some h
        → IsUnhurtBlock geometry perms one.u n h → HasCleanArms (layout_at geometry perms one.u) one.u.world.core h → repaired ≡ 0 }
{}

/// Law: a scrub says that nothing was repaired where each block, as it lands, is unhurt by the harm that was told, and each
/// arm of its columns is clean for it, and where legal histories give the states of the metaslabs.
pub fn sound_pools_are_left_alone<D: Decides>(decider: &D)
    ensures { (limit : Option ℕ) (from blocks repaired errors : ℕ) (paused : Bool) (old new : State)
        → (it : CarriesOut (D.choices decider.now) (ScrubPool limit) (Reply.Scrubbed from blocks repaired errors paused) old new)
        → AreReached old → AllOf (FindsSound old.geometry old.perms) it.holds → repaired ≡ 0 }
{}

/// Law: a second scrub says that nothing was repaired, where the one before it came to its end without errors, and nothing
/// comes between. So it is where no metaslab had a pass as the first came, each arm kept its sectors on leaves that answer,
/// the racks told harm, and legal histories gave the states of the metaslabs.
pub fn second_scrubs_repair_nothing<D: Decides>(decider: &D)
    ensures { (first limit : Option ℕ) (from blocks mended again units repaired errors : ℕ) (paused : Bool) (old mid new : State)
        → MayBeScrubbed old → CarriesOut (D.choices decider.now) (ScrubPool first) (Reply.Scrubbed from blocks mended 0 false) old mid
        → CarriesOut (D.choices decider.now) (ScrubPool limit) (Reply.Scrubbed again units repaired errors paused) mid new
        → repaired ≡ 0 }
{}
