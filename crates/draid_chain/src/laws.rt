ghost use Rattle.std.specs.Prelude.{◌≡◌, ◌≢◌, ◌+◌, ◌*◌, ◌<◌, ◌≤◌, ℕ, Option, Some, None};
ghost use Rattle.draid_spec.specs.declared.layout.Geometry.{Geometry};
ghost use Rattle.draid_spec.specs.Geometry.{slice_sectors};
ghost use Rattle.draid_perm.specs.declared.perms.Perms.{Perms};
ghost use Rattle.draid_perm.specs.Perms.{children_of};
ghost use Rattle.draid_names.specs.Spares.{AreOfOne, AreSpares, AreUsed, IsArm};
ghost use Rattle.draid_chain.specs.Chain.{EndsAt, chain_end, holder_in, holder_of, links_in, spare_slot};
ghost use Rattle.draid_chain.specs.Used.{Gains, HasColumn};

/// Law: the chain of a spare arm whose slot has a column in the slice ends, at a slot without a spare
/// arm, after at most as many links as there are spares.
pub fn chains_end()
    ensures chain { (perms : Perms) (spares slice slot spare : ℕ) (first : ℕ → Option ℕ)
        → AreUsed (children_of perms) spares first
        → HasColumn perms spares slice slot → IsArm (children_of perms) spares first slot spare
        → (further : ℕ) × (links_in perms spares slice first slot spare ≡ further + 1)
        × EndsAt (spare_slot perms slice) first spare further
        (holder_in perms spares slice first slot spare) }
    ensures free { (perms : Perms) (spares slice slot spare : ℕ) (first : ℕ → Option ℕ)
        → AreUsed (children_of perms) spares first
        → HasColumn perms spares slice slot → IsArm (children_of perms) spares first slot spare
        → first (holder_in perms spares slice first slot spare) ≡ None }
    ensures links { (perms : Perms) (spares slice slot spare : ℕ) (first : ℕ → Option ℕ)
        → AreUsed (children_of perms) spares first
        → HasColumn perms spares slice slot → IsArm (children_of perms) spares first slot spare
        → links_in perms spares slice first slot spare ≤ spares }
{}

/// Law: the rule itself, without a bound on links. The slot at the spare's position is the holder where
/// it has no spare arm, or where the arm's slot has no column in the slice. Otherwise the chain goes on
/// from the first spare there, and in the same way from each spare on, up to its end.
pub fn chains_follow()
    ensures alone { (perms : Perms) (spares slice slot spare : ℕ) (first : ℕ → Option ℕ)
        → ¬ HasColumn perms spares slice slot
        → holder_in perms spares slice first slot spare ≡ spare_slot perms slice spare }
    ensures stays { (perms : Perms) (spares slice slot spare : ℕ) (first : ℕ → Option ℕ)
        → first (spare_slot perms slice spare) ≡ None
        → holder_in perms spares slice first slot spare ≡ spare_slot perms slice spare }
    ensures goes_on { (perms : Perms) (spares slice slot spare next : ℕ) (first : ℕ → Option ℕ)
        → AreUsed (children_of perms) spares first
        → HasColumn perms spares slice slot → IsArm (children_of perms) spares first slot spare
        → first (spare_slot perms slice spare) ≡ Some next
        → holder_in perms spares slice first slot spare
        ≡ chain_end (spare_slot perms slice) first spares next }
    ensures further { (slot_at : ℕ → ℕ) (first : ℕ → Option ℕ) (spares spare next : ℕ)
        → first (chain_end slot_at first spares spare) ≡ None → first (slot_at spare) ≡ Some next
        → chain_end slot_at first spares spare ≡ chain_end slot_at first spares next }
{}

/// Law: a holder is a slot.
pub fn holders_are_slots()
    ensures { (perms : Perms) (spares slice slot spare : ℕ) (first : ℕ → Option ℕ)
        → holder_in perms spares slice first slot spare < children_of perms }
{}

/// Law: no holder has a column in the slice, so that no column lies at a spare's place.
pub fn holders_have_no_column()
    ensures { (perms : Perms) (spares slice slot spare other : ℕ) (first : ℕ → Option ℕ)
        → AreSpares (children_of perms) spares first → spare < spares
        → HasColumn perms spares slice other
        → holder_in perms spares slice first slot spare ≢ other }
{}

/// Law: chains of two spare arms, of one slot or of two with a column in the slice, end at different
/// slots.
pub fn holders_differ()
    ensures { (perms : Perms) (spares slice a b t u : ℕ) (first : ℕ → Option ℕ)
        → AreUsed (children_of perms) spares first
        → HasColumn perms spares slice a → IsArm (children_of perms) spares first a t
        → HasColumn perms spares slice b → IsArm (children_of perms) spares first b u
        → t ≢ u
        → holder_in perms spares slice first a t ≢ holder_in perms spares slice first b u }
{}

/// Law: where an earlier table of first spares and a later one lead two arms to one place, they are
/// one spare. Each of them is first of no other slot in the other's table.
pub fn chains_lead_back()
    ensures { (perms : Perms) (spares slice a b t u : ℕ) (earlier later : ℕ → Option ℕ)
        → AreSpares (children_of perms) spares earlier → AreSpares (children_of perms) spares later
        → AreOfOne (children_of perms) earlier later
        → HasColumn perms spares slice a → IsArm (children_of perms) spares later a t
        → HasColumn perms spares slice b → IsArm (children_of perms) spares earlier b u
        → holder_in perms spares slice earlier a t ≡ holder_in perms spares slice later b u
        → t ≡ u }
{}

/// Law: the sectors of a slice have one holder for a spare arm.
pub fn slices_have_one_holder()
    ensures { (geometry : Geometry) (perms : Perms) (first : ℕ → Option ℕ) (slot spare slice x : ℕ)
        → x < slice_sectors geometry
        → holder_of geometry perms first slot spare
        (slice * slice_sectors geometry + x)
        ≡ holder_in perms geometry.spec.spares slice first slot spare }
{}

/// Law: where a slot gets its first spare arm, or loses the only one that it has, just those spare arms
/// move whose holder without it is that slot. The same arms move where its first spare is exchanged.
pub fn chains_move()
    ensures stay { (perms : Perms) (spares slice slot spare at new : ℕ) (before after : ℕ → Option ℕ)
        → Gains before after at new → holder_in perms spares slice before slot spare ≢ at
        → holder_in perms spares slice after slot spare
        ≡ holder_in perms spares slice before slot spare }
    ensures move_on { (perms : Perms) (spares slice slot spare at new : ℕ) (before after : ℕ → Option ℕ)
        → Gains before after at new → AreUsed (children_of perms) spares after
        → HasColumn perms spares slice slot → IsArm (children_of perms) spares after slot spare
        → holder_in perms spares slice after slot spare ≢ at }
    ensures exchange { (perms : Perms) (spares slice slot spare at one two : ℕ)
        (without first second : ℕ → Option ℕ)
        → Gains without first at one → Gains without second at two → one ≢ two
        → AreUsed (children_of perms) spares first → AreUsed (children_of perms) spares second
        → HasColumn perms spares slice slot
        → IsArm (children_of perms) spares first slot spare
        → IsArm (children_of perms) spares second slot spare
        → holder_in perms spares slice without slot spare ≡ at
        → holder_in perms spares slice first slot spare
        ≢ holder_in perms spares slice second slot spare }
{}
