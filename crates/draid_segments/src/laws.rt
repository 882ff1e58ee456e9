ghost use Rattle.std.specs.Prelude.{◌≡◌, ◌==◌, ◌||◌, ◌⊎◌, ℕ, Bool, List, None, Some, IsSome, Vec, true, false};
ghost use Rattle.std.specs.declared.alloc.Global.{Global};
ghost use Rattle.draid_machine.specs.After.{is_mended, is_written, reopen_state};
ghost use Rattle.draid_machine.specs.Created.{IsReached, created};
ghost use Rattle.draid_machine.specs.Images.{IsImage};
ghost use Rattle.draid_machine.specs.Names.{has_segment};
ghost use Rattle.draid_machine.specs.State.{Image, IsLayout, Layout, State};
ghost use Rattle.draid_machine.specs.Step.{LandBlockStep, LandStripeStep, PutStep, Step};
ghost use Rattle.draid_machine.specs.declared.event.Event.{Event};
ghost use Rattle.draid_machine.specs.declared.event.Patched.{Patched};
ghost use Rattle.draid_machine.specs.declared.names.ArmName.{ArmName};
ghost use Rattle.draid_machine.specs.declared.names.ArmName.TheVariants.{Leaf};
ghost use Rattle.draid_machine.specs.declared.names.Held.{Held};
ghost use Rattle.draid_machine.specs.declared.names.Key.{Key};
ghost use Rattle.draid_machine.specs.declared.names.Segment.{Segment};
ghost use Rattle.draid_machine.specs.declared.names.Stage.TheVariants.{Writing};
ghost use Rattle.draid_rack.specs.Moments.{IsCrashOutcome, Leaves};
ghost use Rattle.draid_rack.specs.Rack.{IsOrderly, Told};
ghost use Rattle.draid_segments.specs.Acts.{Acts, DropsBut, IsClaimedAlone, IsMeant, IsNamed, IsUnclaimed, LiesAlone, WritesPieces, doubted, is_put_to, nowhere, pieces_after};
ghost use Rattle.draid_segments.specs.Segments.{Backed, Firm, FirmThrough, Pieces, Steady};

/// Law: where the rack did what the call of a legal event does to it, it has what the state after the event
/// says, if it had what the state before says. At each moment inside the call what the images claim is firm,
/// but for what is in doubt there.
pub fn events_keep_segments()
    ensures backed { (layout : Layout) (state new : State) (event : Event) (pieces written : Pieces) (x y : Told)
        (step : Step layout state event new) → IsLayout layout → IsReached layout state
        → Acts layout state event new step written x y
        → WritesPieces layout state event new step pieces written → Backed layout pieces state x
        → Backed layout (pieces_after layout state event new step pieces written) new y }
    ensures steady { (layout : Layout) (state new : State) (event : Event) (written : Pieces) (x y : Told)
        (image : Image) (step : Step layout state event new) → IsLayout layout → IsReached layout state
        → Acts layout state event new step written x y → IsMeant layout state event new step image
        → Steady layout image (doubted layout state event new step) x y }
    ensures moments { (layout : Layout) (state new : State) (event : Event) (pieces written : Pieces) (x y : Told)
        (image : Image) (step : Step layout state event new) → IsLayout layout → IsReached layout state
        → Acts layout state event new step written x y
        → WritesPieces layout state event new step pieces written → Backed layout pieces state x
        → IsMeant layout state event new step image → IsOrderly x
        → FirmThrough layout (pieces_after layout state event new step pieces written) image
        (doubted layout state event new step) x y }
{}

/// Law: an image that is firm before and after is firm at each moment between, where nothing was written to
/// what it claims. Such spans chain. It is firm after each crash, and with more in doubt.
pub fn images_stay_firm()
    ensures moments { (layout : Layout) (pieces after : Pieces) (image : Image) (doubt : Segment → Bool) (x y : Told)
        → IsOrderly x → Steady layout image doubt x y → Firm layout pieces image doubt x
        → Firm layout after image doubt y → FirmThrough layout after image doubt x y }
    ensures chain { (layout : Layout) (image : Image) (doubt : Segment → Bool) (x y z : Told)
        → Steady layout image doubt x y → Steady layout image doubt y z → Steady layout image doubt x z }
    ensures crash { (layout : Layout) (pieces : Pieces) (image : Image) (doubt : Segment → Bool) (x y : Told)
        → IsCrashOutcome x y → Firm layout pieces image doubt x → Firm layout pieces image doubt y }
    ensures firm_more { (layout : Layout) (pieces : Pieces) (image : Image) (few more : Segment → Bool) (x : Told)
        → ((s : Segment) → more s ≡ false → few s ≡ false) → Firm layout pieces image few x
        → Firm layout pieces image more x }
    ensures steady_more { (layout : Layout) (image : Image) (few more : Segment → Bool) (x y : Told)
        → ((s : Segment) → more s ≡ false → few s ≡ false) → Steady layout image few x y
        → Steady layout image more x y }
{}

/// Law: flushes alone keep what a rack has of a state, and what its images claim. A seal that is refused
/// once it has flushed does no more.
pub fn flushes_keep_segments()
    ensures backed { (layout : Layout) (state : State) (pieces : Pieces) (x y : Told) → Leaves nowhere x y
        → Backed layout pieces state x → Backed layout pieces state y }
    ensures steady { (layout : Layout) (image : Image) (doubt : Segment → Bool) (x y : Told) → Leaves nowhere x y
        → Steady layout image doubt x y }
{}

/// Law: where a ticket's next column may be written nothing that is present lies, and no image claims a
/// segment; so it is where a rebuild's landing may write, but for the segment itself. Where a scrub's
/// landing may write nothing else is present or claimed.
pub fn writes_lie_apart()
    ensures put { (layout : Layout) (state new : State) (key : Key) (landed : List ArmName) (failed : List ℕ)
        (s : Segment) (step : PutStep layout state key landed failed new)
        → IsLayout layout → IsReached layout state → is_put_to layout state.core key step.h step.c s ≡ true
        → LiesAlone layout state step.h s × (state.present s ≡ false) }
    ensures put_unclaimed { (layout : Layout) (state new : State) (key : Key) (landed : List ArmName)
        (failed : List ℕ) (s : Segment) (image : Image) (step : PutStep layout state key landed failed new)
        → IsLayout layout → IsReached layout state → is_put_to layout state.core key step.h step.c s ≡ true
        → IsImage state image → IsUnclaimed layout image step.h s }
    ensures mended { (layout : Layout) (state new : State) (pass serial : ℕ) (failed : List ℕ) (s : Segment)
        (step : LandStripeStep layout state pass serial failed new) → IsLayout layout → IsReached layout state
        → is_mended layout state.core step.p step.n step.h s ≡ true → LiesAlone layout state step.h s }
    ensures mended_unclaimed { (layout : Layout) (state new : State) (pass serial : ℕ) (failed : List ℕ)
        (s : Segment) (image : Image) (step : LandStripeStep layout state pass serial failed new)
        → IsLayout layout → IsReached layout state → is_mended layout state.core step.p step.n step.h s ≡ true
        → IsImage state image → IsUnclaimed layout image step.h s }
    ensures patched { (layout : Layout) (state new : State) (pass serial : ℕ) (failed : List ℕ)
        (patched : List Patched) (unreadable : Bool) (s : Segment)
        (step : LandBlockStep layout state pass serial failed patched unreadable new)
        → IsLayout layout → IsReached layout state → is_written layout state.core step.n step.h patched s ≡ true
        → LiesAlone layout state step.h s }
    ensures patched_claimed { (layout : Layout) (state new : State) (pass serial : ℕ) (failed : List ℕ)
        (patched : List Patched) (unreadable : Bool) (s : Segment) (image : Image)
        (step : LandBlockStep layout state pass serial failed patched unreadable new)
        → IsLayout layout → IsReached layout state → is_written layout state.core step.n step.h patched s ≡ true
        → IsImage state image → IsClaimedAlone layout image step.h s }
{}

/// Law: any rack has all that a new metaslab says. A metaslab that is opened from an image which is firm, but
/// for what is doubtful, has what its state says; leaves that the image doesn't name may go. A leaf may come
/// that is no arm, and of which no detachment waits for its commit. The bytes of blocks that aren't held are
/// free, and fewer bytes may be known.
pub fn segments_begin()
    ensures created { (layout : Layout) (version : ℕ) (pieces : Pieces) (x : Told)
        → Backed layout pieces (created layout version) x }
    ensures opened { (layout : Layout) (state : State) (image : Image) (doubtful : List Segment) (pieces : Pieces)
        (x y : Told) → IsLayout layout → IsReached layout state → IsImage state image → DropsBut (IsNamed image) x y
        → Firm layout pieces image (λ s. state.aside s || has_segment doubtful s) x
        → Backed layout pieces (reopen_state layout state image doubtful) y }
    ensures leaf { (layout : Layout) (state : State) (leaf : ℕ) (pieces : Pieces) (x y : Told) → IsLayout layout
        → IsReached layout state → state.core.arm (Leaf leaf) ≡ None → Leaves (λ m s. m == leaf) x y
        → Backed layout pieces state x → Backed layout pieces state y }
    ensures leaf_steady { (layout : Layout) (state : State) (leaf : ℕ) (image : Image) (x y : Told)
        → IsLayout layout → IsReached layout state → state.core.arm (Leaf leaf) ≡ None → IsImage state image
        → Leaves (λ m s. m == leaf) x y → Steady layout image state.aside x y }
    ensures pieces { (layout : Layout) (state : State) (pieces other : Pieces) (x : Told) → IsLayout layout
        → IsReached layout state → ((key : Key) → IsSome (state.core.held key) → other key ≡ pieces key)
        → Backed layout pieces state x → Backed layout other state x }
    ensures known { (layout : Layout) (state : State) (pieces other : Pieces) (x : Told)
        → ((key : Key) (column row : ℕ) → (other key column row ≡ pieces key column row)
        ⊎ (other key column row ≡ None)) → Backed layout pieces state x → Backed layout other state x }
{}
