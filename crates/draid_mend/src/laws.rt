ghost use Rattle.std.specs.Prelude.{◌≡◌, ◌+◌, ◌<◌, ◌≤◌, [], ℕ, IsSomeAnd, List, Option, Some, Vec, false, length, true};
ghost use Rattle.std.specs.declared.alloc.Global.{Global};
ghost use Rattle.draid_names.specs.declared.pass_kind.PassKind.TheVariants.{Rebuild};
ghost use Rattle.draid_names.specs.declared.pointer.Pointer.{Pointer};
ghost use Rattle.draid_rack.specs.Rack.{OnTold, Told, taints};
ghost use Rattle.draid_parity.specs.Columns.{StripeValue, column_at};
ghost use Rattle.draid_spec.specs.declared.layout.Geometry.{Geometry};
ghost use Rattle.draid_segments.specs.Acts.{MendsStripe, is_source_harmed};
ghost use Rattle.draid_segments.specs.Segments.{Holds, Pieces};
ghost use Rattle.draid_machine.specs.declared.names.Segment.{Segment};
ghost use Rattle.draid_mend.specs.Landing.{AreApartSources, AreMissing, IsRight, LoanStands, sources_of};
ghost use Rattle.draid_mend.specs.Lands.{IsSolvable, KeptStands};
ghost use Rattle.draid_mend.specs.Solving.{HasKnownContent, SolvesRow};
ghost use Rattle.draid_machine.specs.After.{land_stripe_state, lend_state, unsourced};
ghost use Rattle.draid_machine.specs.Created.{IsReached};
ghost use Rattle.draid_machine.specs.State as machine;
ghost use Rattle.draid_machine.specs.Step.{IsNext, LandStripeStep, Step};
ghost use Rattle.draid_machine.specs.declared.event.Event.TheVariants.{Lend};
ghost use Rattle.draid_machine.specs.declared.names.Held.{Held};
ghost use Rattle.draid_machine.specs.declared.names.Key.{Key};
ghost use Rattle.draid_slots.specs.Changes.{IsOf};
ghost use Rattle.draid_slots.specs.States.{HasSlots, names_at};
ghost use Rattle.draid_slots.specs.Table.{SlotTable};
ghost use Rattle.draid_shard.specs.Part.{IsPart, IsRun, Part, layout_in};
ghost use Rattle.draid_shard.specs.Fits.{Valid};
ghost use Rattle.draid_shard.specs.Loans.{chosen_at, stripe_loan};
ghost use Rattle.draid_shard.specs.Stands.{StandsFor};
ghost use Rattle.draid_shard.specs.States.{IsIn, part_of};
ghost use Rattle.draid_shard.specs.declared.loan.KeptLoan.TheVariants.{Stripe};
ghost use Rattle.draid_shard.specs.declared.loan.LentStripe.{LentStripe};
ghost use Rattle.draid_shard.specs.declared.loan.Source.{Source};
ghost use Rattle.draid_shard.specs.declared.shard.Shard.{Shard};
ghost use Rattle.draid_mend.specs.Missing.{SolvesLoan, missing_of};
ghost use Rattle.draid_mend.specs.Loans.{IsRunningRebuild, LendsUnit};
ghost use Rattle.draid_names.specs.declared.arm.ArmAt.{ArmAt};
ghost use Rattle.draid_shard.specs.Rows.{AreApart};
ghost use Rattle.draid_mend.specs.Lending.{Lends, loan_of};
ghost use Rattle.draid_mend.specs.Stands.{IsSolved, IsStripeOf};
ghost use Rattle.draid_mend.specs.Stripes.{AreColumnsApart, FailsColumns, HasNoSource, LandsBelow, landed_below, rows_at, sources_for};
ghost use Rattle.draid_mend.specs.Targets.{AreFree, AreThere};
ghost use Rattle.draid_mend.specs.Reading.{ReadsStripe};
ghost use Rattle.draid_mend.specs.declared.reading.Taken.{Taken};

use draid_area::Area;
use draid_rack::Rack;

/// Law: where all columns of the next stripe of a rebuild that runs were read from their sources, that is a legal lend.
pub fn stripes_are_lent()
    ensures { (part : Part) (slots : SlotTable) (w : machine.State) (p : machine.Pass) (key : Key) (h : Held) (pointer : Pointer)
        (told : Option Told) (columns : List (List ℕ)) (taken : List Taken) (failed : List ℕ)
        → IsPart part → IsOf slots part.geometry part.perms part.number → IsReached (layout_in part) w → HasSlots slots w.core
        → w.core.pass ≡ Some p → p.kind ≡ Rebuild → p.running ≡ true → IsNext w.core p key h pointer.first
        → pointer.stripes ≡ 1 → IsRun part.geometry pointer.first pointer.stripes
        → ReadsStripe part slots pointer part.geometry.g told columns taken failed
        → Lends part slots w pointer key taken failed }
{}

/// Law: a column that is mended of the sources of its loan is harmed just where the state machine says.
pub fn sources_taint()
    ensures { (l : machine.Layout) (q : machine.Core) (n : machine.Loan) (s : Segment) (x : Told)
        → taints (sources_of l q n s.column) x ≡ is_source_harmed l q x n s }
{}

/// Law: of a stripe that was solved of what was read, where the loan fact holds of that, each column is its block's piece
/// where that is known and nothing of which it was made is harmed or in doubt.
pub fn solved_columns_are_right()
    ensures { (geometry : Geometry) (l : machine.Layout) (w : machine.State) (n : machine.Loan) (h : Held) (pieces : Pieces)
        (read solved : StripeValue) (missing : List ℕ) (x : Told) (s : Segment) → l.columns ≡ geometry.g
        → AreMissing l n missing → LoanStands l w n h pieces read x → SolvesRow geometry missing read solved
        → HasKnownContent geometry h.stripes n.key pieces → s.row < h.stripes → IsRight l w n h pieces solved x s }
{}

/// Law: no two columns of a stripe land on one leaf, and none lands on a source, since no source is a target.
pub fn stripes_land_apart()
    ensures columns { (part : Part) (slots : SlotTable) (w : machine.State) (pointer : Pointer) (targets : List ArmAt)
        → IsPart part → IsOf slots part.geometry part.perms part.number → IsReached (layout_in part) w → HasSlots slots w.core
        → IsRun part.geometry pointer.first pointer.stripes → AreColumnsApart part slots pointer targets }
    ensures free { (part : Part) (slots : SlotTable) (w : machine.State) (p : machine.Pass) (pointer : Pointer) (targets : List ArmAt)
        (chosen : List (Option Source))
        → IsPart part → IsOf slots part.geometry part.perms part.number → IsReached (layout_in part) w → HasSlots slots w.core
        → IsRun part.geometry pointer.first pointer.stripes → w.core.pass ≡ Some p → p.targets ≡ names_at slots targets
        → AreApartSources part w pointer.first chosen → ((c : ℕ) → c < part.geometry.g → AreApart slots (rows_at part pointer c))
        → (c : ℕ) → c < part.geometry.g → AreFree (landed_below part slots pointer targets part.geometry.g) (sources_for part pointer chosen c) }
{}

/// Law: a stripe that was solved of what was read, and written to the targets of a rebuild, is mended as the state machine
/// says, where the loan fact holds of what was read.
pub fn stripes_are_mended()
    ensures { (part : Part) (slots : SlotTable) (w : machine.State) (p : machine.Pass) (n : machine.Loan) (pointer : Pointer) (key : Key) (h : Held) (row : ℕ)
        (targets : List ArmAt) (chosen : List (Option Source)) (failed : List ℕ) (read solved : StripeValue) (missing : List ℕ) (pieces : Pieces) (x y : Told)
        → IsPart part → IsOf slots part.geometry part.perms part.number → IsReached (layout_in part) w → HasSlots slots w.core
        → IsStripeOf part w key h row pointer → w.core.pass ≡ Some p → p.targets ≡ names_at slots targets → n.key ≡ key → n.stripe ≡ pointer.first
        → ((c : ℕ) → n.chosen c ≡ chosen_at chosen c) → AreApartSources part w pointer.first chosen
        → LandsBelow part slots pointer targets part.geometry.g solved.columns chosen failed x y
        → IsSolved part w n h pieces read solved missing x
        → MendsStripe (layout_in part) w p n h failed pieces x y }
{}

/// Law: as a rebuild's stripe is lent, the loan fact holds of what was read: each chosen reading is its block's piece, where that
/// is known, unless its segment is harmed or in doubt.
pub fn loans_begin_right()
    ensures { (part : Part) (slots : SlotTable) (w : machine.State) (p : machine.Pass) (key : Key) (h : Held) (pointer : Pointer) (x : Told)
        (read : StripeValue) (taken : List Taken) (failed : Vec ℕ Global) (pieces : Pieces)
        → IsPart part → IsOf slots part.geometry part.perms part.number → IsReached (layout_in part) w → HasSlots slots w.core
        → w.core.pass ≡ Some p → p.kind ≡ Rebuild → p.running ≡ true → IsNext w.core p key h pointer.first
        → pointer.stripes ≡ 1 → IsRun part.geometry pointer.first pointer.stripes
        → ReadsStripe part slots pointer part.geometry.g (Some x) read.columns taken failed.items
        → Holds (layout_in part) pieces w x
        → LoanStands (layout_in part) (lend_state w p (loan_of part slots w pointer key taken) failed.items)
        (loan_of part slots w pointer key taken) h pieces read x }
{}

/// Law: the landing of a rebuild's stripe on its targets is a legal event, with the leaves on which calls failed, where the
/// loan counts and no more columns are missing than the parity solves.
pub fn stripes_are_landed()
    ensures { (part : Part) (slots : SlotTable) (w : machine.State) (p : machine.Pass) (n : machine.Loan) (pointer : Pointer) (key : Key) (h : Held) (row : ℕ)
        (targets : List ArmAt) (failed : List ℕ)
        → IsPart part → IsOf slots part.geometry part.perms part.number → IsReached (layout_in part) w → HasSlots slots w.core
        → IsStripeOf part w key h row pointer → p.targets ≡ names_at slots targets → n.key ≡ key → n.stripe ≡ pointer.first
        → FailsColumns part slots pointer targets part.geometry.g [] failed → p.kind ≡ Rebuild → w.core.pass ≡ Some p → w.loan ≡ Some n
        → unsourced (layout_in part) n ≤ part.geometry.spec.parity
        → LandStripeStep (layout_in part) w p.number n.serial failed (land_stripe_state (layout_in part) w p n h failed) }
{}

/// Law: each target of a rebuild lacks the birth of each block that is held, so it is no source.
pub fn targets_are_no_sources()
    ensures { (part : Part) (slots : SlotTable) (w : machine.State) (p : machine.Pass) (key : Key) (h : Held) (targets : List ArmAt)
        → IsPart part → IsReached (layout_in part) w → HasSlots slots w.core → w.core.pass ≡ Some p → p.kind ≡ Rebuild
        → w.core.held key ≡ Some h → p.targets ≡ names_at slots targets → AreThere slots targets → HasNoSource slots targets }
{}

/// Law: the columns of a loan that are listed as missing are those without a source, and as many as the machine counts.
pub fn missing_columns_are_listed()
    ensures missing { (l : machine.Layout) (kept : LentStripe) → l.columns ≡ length kept.chosen.items → AreMissing l (stripe_loan kept) (missing_of kept) }
    ensures many { (l : machine.Layout) (kept : LentStripe) → l.columns ≡ length kept.chosen.items → unsourced l (stripe_loan kept) ≡ length (missing_of kept) }
{}

/// Law: what was lent of a stripe, and solved, is right in the state that the lend led to, so that it may land.
pub fn solved_loans_stand<R: Rack, A: Area>()
    ensures { (part : Part) (old lent solved : Shard R A) (w v : machine.State) (pieces : Pieces) (kept : LentStripe) (unit : LendsUnit R.Rack old lent)
        → part_of old ≡ part → Valid R.Rack old → Valid R.Rack lent → IsSomeAnd old.pass IsRunningRebuild → StandsFor R.Rack old w pieces
        → ((k : Key) (h : Held) → w.core.held k ≡ Some h → HasKnownContent part.geometry h.stripes k pieces)
        → R.told lent.rack ≡ R.told old.rack → Step (layout_in part) w (Lend unit.failed) v → IsIn lent v
        → SolvesLoan old.geometry lent.kept solved.kept → solved ≡ record lent { kept = solved.kept }
        → solved.kept ≡ Some (Stripe kept) → IsSolvable part.geometry kept → OnTold (R.told solved.rack) (KeptStands part v kept pieces) }
{}
