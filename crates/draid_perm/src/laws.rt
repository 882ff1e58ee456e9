ghost use Rattle.std.specs.Prelude.{◌≡◌, ◌<◌, ◌≤◌, ℕ};
ghost use Rattle.std.specs.List.{range_with_len};
ghost use Rattle.std.specs.List.Sorted.{IsPermutation};
ghost use Rattle.draid_perm.specs.Perms.{AreSeeded, child_of, children_of, seeded_child};
ghost use Rattle.draid_perm.specs.Rows.{base_row};
ghost use Rattle.draid_perm.specs.declared.perms.Perms.{Perms};

/// Law: in each slice the positions stand on children, no two of them on the same.
#[tactic(auto, using(crate::proofs::Children::child_apart, crate::proofs::Children::child_below))]
pub fn positions_stand_apart()
    ensures below { (perms : Perms) (slice position : ℕ) → child_of perms slice position < children_of perms }
    ensures apart { (perms : Perms) (slice a b : ℕ) → a < children_of perms → b < children_of perms
        → child_of perms slice a ≡ child_of perms slice b → a ≡ b }
{}

/// Law: the children of a seed's permutations are those of its base rows.
#[tactic(auto, using(crate::proofs::Children::child_seeded))]
pub fn children_are_seeded()
    ensures { (perms : Perms) (n seed slice position : ℕ) → AreSeeded perms n seed → position < n
        → child_of perms slice position ≡ seeded_child n seed slice position }
{}

/// Law: the number of children and the seed fix the permutations.
pub fn seeds_fix_permutations()
    ensures { (a b : Perms) (n seed : ℕ) → AreSeeded a n seed → AreSeeded b n seed → a ≡ b }
{}

/// Law: each base row has the children in another order.
#[tactic(auto, using(crate::proofs::RowOrders::row_order))]
pub fn rows_are_orders()
    ensures { (n seed row : ℕ) → 1 ≤ n → IsPermutation (range_with_len 0 n) (base_row n seed row) }
{}
