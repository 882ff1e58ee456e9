ghost use Rattle.std.specs.Prelude.{◌≡◌, ◌<◌, ◌≤◌, ◌^◌, ℕ, All, true, map, length};
ghost use Rattle.draid_names.specs.declared.arm.Arm.{Arm};
ghost use Rattle.draid_slots.specs.declared.slot.Slot.{Slot};
ghost use Rattle.draid_slots.specs.Moves.{ArePlaces, has_moved};
ghost use Rattle.draid_slots.specs.Table.{arms_in, has_leaf, is_spare_kind};

use crate::slot::{Slot, first_leaf, first_spare};

/// How many spares a pool may have.
pub(crate) const MOST_SPARES: usize = 4;

/// How many children a pool may have.
pub(crate) const MOST_CHILDREN: usize = 64;

/// The spares that keep sectors on other leaves than before a change of arms.
#[derive(Clone, Copy)]
pub struct Moved {
    pub(crate) spares: [bool; MOST_SPARES],
}

impl Moved {
    /// Whether a spare is among them.
    pub fn has(&self, spare: u32) -> bool
        ensures { result ≡ has_moved self.now spare }
    {
        (spare as usize) < MOST_SPARES && self.spares[spare as usize]
    }
}

/// Of each slot the first spare, and the number of the first leaf.
#[derive(Clone, Copy)]
pub(crate) struct Places {
    pub used: [Option<u32>; MOST_CHILDREN],
    pub leaves: [u64; MOST_CHILDREN],
}

/// The first spare and the first leaf of each slot.
pub(crate) fn places_of(slots: &[Slot]) -> Places
    requires most { length slots.now ≤ 64 }
    requires numbers { All (λ (slot : Slot). All (λ (arm : Arm). is_spare_kind arm.kind ≡ true → arm.number < 2 ^ 32) (arms_in slot)) slots.now }
    requires leaves { All (λ (slot : Slot). has_leaf (arms_in slot) ≡ true) slots.now }
    ensures { ArePlaces (map arms_in slots.now) result }
{
    let mut places = Places {
        used: [None; MOST_CHILDREN],
        leaves: [0; MOST_CHILDREN],
    };
    for slot in 0..slots.len() {
        places.used[slot] = first_spare(&slots[slot].arms);
        places.leaves[slot] = first_leaf(&slots[slot].arms).number;
    }
    places
}
