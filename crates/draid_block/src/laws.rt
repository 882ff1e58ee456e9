ghost use Rattle.std.specs.Prelude.{Contains, List, Result, ℕ, ◌≡◌};
ghost use Rattle.std.specs.List.{AllPairs};
ghost use Rattle.std.specs.declared.vec.Vec.{Vec};
ghost use Rattle.std.specs.declared.alloc.Global.{Global};
ghost use Rattle.draid_spec.specs.Geometry.{IsGeometry};
ghost use Rattle.draid_spec.specs.declared.layout.Geometry.{Geometry};
ghost use Rattle.draid_block.specs.Blocks.{AreColumns, columns_of, cut_of};
ghost use Rattle.draid_block.specs.Columns.{Cut};
ghost use Rattle.draid_block.specs.Order.{IsTried, Precedes, solve_order};
ghost use Rattle.draid_block.specs.Solving.{IsSameAnswer, SolvesBlock};
ghost use Rattle.draid_block.specs.declared.solve.Fetched.{Fetched};
ghost use Rattle.draid_block.specs.declared.solve.SolveFault.{SolveFault};

/// Law: the order of solving has just the sets that are tried, each once: by size, and those of one
/// size in lexicographic order.
#[tactic(auto, using(crate::proofs::Order::order_has, crate::proofs::Order::order_sorted))]
pub fn sets_are_in_order()
    ensures whole { (parity n : ℕ) (absent set : List ℕ) → IsTried parity n absent set
        → Contains (solve_order parity n absent) set }
    ensures only { (parity n : ℕ) (absent set : List ℕ) → Contains (solve_order parity n absent) set
        → IsTried parity n absent set }
    ensures sorted { (parity n : ℕ) (absent : List ℕ)
        → AllPairs Precedes (solve_order parity n absent) }
{}

/// Law: what was read of a block has one answer, want of memory aside.
#[tactic(auto, using(crate::proofs::One::answers_same))]
pub fn answers_are_one()
    ensures { (cut : Cut) (fetched : Fetched) (answer other : Result (Vec ℕ Global) SolveFault)
        → SolvesBlock cut fetched answer → SolvesBlock cut fetched other
        → IsSameAnswer answer other }
{}

/// Law: the columns of a block are columns of it, over any geometry, and there are no others.
pub fn columns_are_one()
    ensures are { (geometry : Geometry) (w : List ℕ) → IsGeometry geometry
        → AreColumns (cut_of geometry) w (columns_of (cut_of geometry) w) }
    ensures only { (cut : Cut) (w : List ℕ) (columns : List (List ℕ)) → AreColumns cut w columns
        → columns ≡ columns_of cut w }
{}
