ghost use Rattle.std.specs.Prelude.{◌≡◌, ℕ, Bool, List, Option, Some, Result, OnOk, OnErr, false, true, length, option_map};
ghost use Rattle.draid_rack.specs.Moments.{ChangesOnly, ChangesOnlyTold, CrashesTold, IsCrashOutcome, KeptOthers, Leaves, LeavesTold, OnBoth};
ghost use Rattle.draid_rack.specs.Rack.{Fits, IsOfShape, IsOrderly, Lands, OnTold, Shape, Told, adds, damages, drops, flushes, settles};

/// What a crash may leave of what a rack tells: what a leaf's sectors read at its flush, and what each sector read that
/// wasn't soft and that no call changed since.
pub fn crashes_keep_what_is_firm()
    ensures flushed { (l s : ℕ) (x left : Told) → IsCrashOutcome (flushes l x) left → left.reads l s ≡ x.reads l s }
    ensures unwritten { (named : ℕ → ℕ → Bool) (x y left : Told) → ChangesOnly named x y → IsCrashOutcome y left
        → (l s : ℕ) → named l s ≡ false → x.soft l s ≡ false → left.reads l s ≡ x.reads l s }
{}

/// What a crash may leave of a rack that had a crash is what a crash may leave of it before, and reads the same.
pub fn crashes_follow_one_another()
    ensures outcome { (x y z : Told) → IsCrashOutcome x y → IsCrashOutcome y z → IsCrashOutcome x z }
    ensures told { (x y z : Option Told) → CrashesTold x y → CrashesTold y z → CrashesTold x z }
    ensures read { (x y z : Told) → IsCrashOutcome x y → IsCrashOutcome y z → (l s : ℕ) → z.reads l s ≡ y.reads l s }
    ensures orderly { (x y : Told) → IsCrashOutcome x y → IsOrderly x → IsOrderly y }
    ensures shaped { (shape : Shape) (x y : Told) → IsCrashOutcome x y → IsOfShape shape x → IsOfShape shape y }
{}

/// Each call leaves all sectors that it doesn't name, and their harm, as they were.
pub fn calls_leave_the_rest<E>()
    ensures lands { (named : ℕ → ℕ → Bool) (l s : ℕ) (bytes : List ℕ) (harm : Told → Bool) (r : Result Unit E)
        (x y : Option Told) → named l s ≡ true → Lands l s bytes harm r x y → LeavesTold named x y }
    ensures flushes { (named : ℕ → ℕ → Bool) (l : ℕ) (r : Result Unit E) (x y : Option Told)
        → OnOk r (y ≡ option_map (flushes l) x) → OnErr r (y ≡ x) → LeavesTold named x y }
    ensures settles { (named : ℕ → ℕ → Bool) (l s : ℕ) (x y : Option Told) → named l s ≡ true
        → y ≡ option_map (settles l s) x → LeavesTold named x y }
    ensures damages { (named : ℕ → ℕ → Bool) (l s : ℕ) (r : Result Unit E) (x y : Option Told) → named l s ≡ true
        → OnOk r (y ≡ option_map (damages l s) x) → OnErr r (y ≡ x) → LeavesTold named x y }
    ensures adds { (named : ℕ → ℕ → Bool) (bytes l n : ℕ) (r : Result Unit E) (x y : Option Told)
        → ((s : ℕ) → named l s ≡ true) → OnOk r (y ≡ option_map (adds bytes l n) x) → OnErr r (y ≡ x)
        → LeavesTold named x y }
    ensures drops { (named : ℕ → ℕ → Bool) (l : ℕ) (x y : Option Told) → ((s : ℕ) → named l s ≡ true)
        → y ≡ option_map (drops l) x → LeavesTold named x y }
{}

/// What calls leave chains, and says what held at each moment of them.
pub fn calls_that_leave_chain()
    ensures same { (named : ℕ → ℕ → Bool) (x y : Option Told) → y ≡ x → LeavesTold named x y }
    ensures chain { (named : ℕ → ℕ → Bool) (x y z : Option Told) → LeavesTold named x y → LeavesTold named y z
        → LeavesTold named x z }
    ensures more { (few more : ℕ → ℕ → Bool) (x y : Option Told)
        → ((l s : ℕ) → more l s ≡ false → few l s ≡ false) → LeavesTold few x y → LeavesTold more x y }
    ensures only { (named : ℕ → ℕ → Bool) (x y : Option Told) → LeavesTold named x y → ChangesOnlyTold named x y }
    ensures moments { (named : ℕ → ℕ → Bool) (x y : Option Told) → OnTold x IsOrderly → LeavesTold named x y
        → OnBoth x y (KeptOthers named) }
{}

/// Where a rack tells, a sector that is there reads bytes of a sector's length, and what reads something is there.
pub fn shapes_say_what_is_there()
    ensures there { (shape : Shape) (x : Told) (l s n : ℕ) → IsOfShape shape x → Fits shape l s n
        → (bytes : List ℕ) × (x.reads l s ≡ Some bytes) × (length bytes ≡ n) }
    ensures read { (shape : Shape) (x : Told) (l s : ℕ) (bytes : List ℕ) → IsOfShape shape x
        → x.reads l s ≡ Some bytes → Fits shape l s (length bytes) }
{}
