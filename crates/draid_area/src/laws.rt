ghost use Rattle.std.specs.Prelude.{◌≡◌, ◌≤◌, ℕ, Bool, List, Option, false, length, slice_index_or};
ghost use Rattle.draid_area.specs.Area.{Content, IsOrderly, MayLeave, flushes};
ghost use Rattle.draid_area.specs.Moments.{ChangesOnly, ChangesOnlyTold, CrashKeeps, CrashesTold, IsCrashOutcome};

/// What a crash may leave of what an area tells: all that was flushed, and each byte that wasn't soft and that no call
/// wrote since, also at each moment between.
pub fn crashes_keep_what_is_firm()
    ensures flushed { (x : Content) (left : List ℕ) → MayLeave (flushes x) left → left ≡ x.bytes }
    ensures unwritten { (named : ℕ → Bool) (x y : Content) (left : List ℕ) (i d : ℕ) → ChangesOnly named x y
        → MayLeave y left → named i ≡ false → x.soft i ≡ false
        → slice_index_or left i d ≡ slice_index_or x.bytes i d }
    ensures moments { (named : ℕ → Bool) (x y : Content) → IsOrderly x → ChangesOnly named x y
        → CrashKeeps named x y }
{}

/// What a crash may leave of an area that had a crash is what a crash may leave of it before, and just what it reads.
pub fn crashes_follow_one_another()
    ensures left { (x y : Content) (left : List ℕ) → IsCrashOutcome x y → MayLeave y left → MayLeave x left }
    ensures read { (x y : Content) (left : List ℕ) → IsCrashOutcome x y → MayLeave y left → left ≡ y.bytes }
    ensures outcome { (x y z : Content) → IsCrashOutcome x y → IsCrashOutcome y z → IsCrashOutcome x z }
    ensures told { (x y z : Option Content) → CrashesTold x y → CrashesTold y z → CrashesTold x z }
    ensures orderly { (x y : Content) → IsCrashOutcome x y → IsOrderly x → IsOrderly y }
{}

/// Calls one after another change only what some of them names.
pub fn changes_follow_one_another()
    ensures one { (named : ℕ → Bool) (x y z : Option Content) → ChangesOnlyTold named x y → ChangesOnlyTold named y z
        → ChangesOnlyTold named x z }
    ensures more { (few more : ℕ → Bool) (x y : Option Content) → ((i : ℕ) → more i ≡ false → few i ≡ false)
        → ChangesOnlyTold few x y → ChangesOnlyTold more x y }
{}
