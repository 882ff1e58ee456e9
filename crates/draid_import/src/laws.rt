ghost use Rattle.std.specs.Prelude.{◌≡◌, ℕ, List, Option, Some};
ghost use Rattle.draid_record.specs.declared.fault.RecordFaultKind.{RecordFaultKind};
ghost use Rattle.draid_rack.specs.Rack.{Shape};
ghost use Rattle.draid_shelf.specs.Kits.{Held, KitCounts};
ghost use Rattle.draid_import.specs.Checking.{CheckIsBad};
ghost use Rattle.draid_import.specs.Faulty.{HoldsNoGroup, RecordIsBad};
ghost use Rattle.draid_import.specs.Findings.{FindsPool, KnowsLeaves};
ghost use Rattle.draid_import.specs.Found.{SameButFlushed};

use draid_area::Area;
use draid_rack::Rack;

/// Law: what an import finds behind a flush of the uberblock's area is what one finds before it.
pub fn finds_the_same_before_a_flush<R: Rack, A: Area>()
    ensures none { (x y : Held) → SameButFlushed x y → HoldsNoGroup (Some y) → HoldsNoGroup (Some x) }
    ensures fault { (x y : Held) (leaves : ℕ → Option Shape) (counts : ℕ → KitCounts) (metaslab : Option ℕ)
        (place : ℕ) (kind : RecordFaultKind) → SameButFlushed x y → RecordIsBad R.Rack A.Area (Some y) leaves counts metaslab place kind
        → RecordIsBad R.Rack A.Area (Some x) leaves counts metaslab place kind }
    ensures check { (x y : Held) (leaves : ℕ → Option Shape) (counts : ℕ → KitCounts) (place : ℕ)
        (kind : RecordFaultKind) → SameButFlushed x y → CheckIsBad R.Rack A.Area (Some y) leaves counts place kind
        → CheckIsBad R.Rack A.Area (Some x) leaves counts place kind }
    ensures pool { (x y : Held) (leaves : ℕ → Option Shape) (counts : ℕ → KitCounts) (group : ℕ) (name : List ℕ)
        (objects : ℕ) → SameButFlushed x y → FindsPool R.Rack A.Area (Some y) leaves counts group name objects
        → FindsPool R.Rack A.Area (Some x) leaves counts group name objects }
{}

/// Law: on a shelf that tells, and knows the leaves of what it holds, an import finds one thing: no group, one fault of a
/// record, one of the check record, or one pool.
pub fn imports_find_one_thing<R: Rack, A: Area>()
    ensures none_no_fault { (x : Held) (leaves : ℕ → Option Shape) (counts : ℕ → KitCounts) (metaslab : Option ℕ)
        (place : ℕ) (kind : RecordFaultKind) → HoldsNoGroup (Some x)
        → RecordIsBad R.Rack A.Area (Some x) leaves counts metaslab place kind → ⊥ }
    ensures none_no_check { (x : Held) (leaves : ℕ → Option Shape) (counts : ℕ → KitCounts) (place : ℕ)
        (kind : RecordFaultKind) → HoldsNoGroup (Some x) → CheckIsBad R.Rack A.Area (Some x) leaves counts place kind → ⊥ }
    ensures none_no_pool { (x : Held) (leaves : ℕ → Option Shape) (counts : ℕ → KitCounts) (group : ℕ)
        (name : List ℕ) (objects : ℕ) → HoldsNoGroup (Some x)
        → FindsPool R.Rack A.Area (Some x) leaves counts group name objects → ⊥ }
    ensures pool_no_fault { (x : Held) (leaves : ℕ → Option Shape) (counts : ℕ → KitCounts) (group : ℕ)
        (name : List ℕ) (objects : ℕ) (metaslab : Option ℕ) (place : ℕ) (kind : RecordFaultKind) → KnowsLeaves x leaves
        → FindsPool R.Rack A.Area (Some x) leaves counts group name objects
        → RecordIsBad R.Rack A.Area (Some x) leaves counts metaslab place kind → ⊥ }
    ensures pool_no_check { (x : Held) (leaves : ℕ → Option Shape) (counts : ℕ → KitCounts) (group : ℕ)
        (name : List ℕ) (objects : ℕ) (place : ℕ) (kind : RecordFaultKind) → KnowsLeaves x leaves
        → FindsPool R.Rack A.Area (Some x) leaves counts group name objects
        → CheckIsBad R.Rack A.Area (Some x) leaves counts place kind → ⊥ }
    ensures fault_no_check { (x : Held) (leaves : ℕ → Option Shape) (counts : ℕ → KitCounts) (metaslab : Option ℕ)
        (at : ℕ) (which : RecordFaultKind) (place : ℕ) (kind : RecordFaultKind) → KnowsLeaves x leaves
        → RecordIsBad R.Rack A.Area (Some x) leaves counts metaslab at which
        → CheckIsBad R.Rack A.Area (Some x) leaves counts place kind → ⊥ }
    ensures one_fault { (x : Held) (leaves : ℕ → Option Shape) (counts : ℕ → KitCounts) (metaslab also : Option ℕ)
        (place : ℕ) (kind : RecordFaultKind) (at : ℕ) (which : RecordFaultKind) → KnowsLeaves x leaves
        → RecordIsBad R.Rack A.Area (Some x) leaves counts metaslab place kind
        → RecordIsBad R.Rack A.Area (Some x) leaves counts also at which
        → (metaslab ≡ also) × (place ≡ at) × (kind ≡ which) }
    ensures one_check { (x : Held) (leaves : ℕ → Option Shape) (counts : ℕ → KitCounts) (place : ℕ)
        (kind : RecordFaultKind) (at : ℕ) (which : RecordFaultKind) → KnowsLeaves x leaves
        → CheckIsBad R.Rack A.Area (Some x) leaves counts place kind
        → CheckIsBad R.Rack A.Area (Some x) leaves counts at which → (place ≡ at) × (kind ≡ which) }
    ensures one_pool { (x : Held) (leaves : ℕ → Option Shape) (counts : ℕ → KitCounts) (group other : ℕ)
        (name called : List ℕ) (objects many : ℕ) → KnowsLeaves x leaves
        → FindsPool R.Rack A.Area (Some x) leaves counts group name objects
        → FindsPool R.Rack A.Area (Some x) leaves counts other called many
        → (group ≡ other) × (name ≡ called) × (objects ≡ many) }
{}
