ghost use Rattle.std.specs.Prelude.{◌≡◌, ◌<◌, ◌^◌, ◌&&◌, Some, true, false, find};
ghost use Rattle.draid_machine.specs.Arms as arms;
ghost use Rattle.draid_world.specs.World.{core_of, site_layout};

use crate::answering::has_number;
use crate::arms::names_of;
use crate::site::Site;
use crate::world::Tables;
use draid_machine::{ArmName, Held};
use draid_names::NUMBERS;

impl Site {
    /// Whether the leaf answers on which an arm keeps what belongs to a stripe.
    pub fn answers(&self, tables: &Tables, name: ArmName, stripe: u64) -> bool
        requires stripe { stripe < 2 ^ 49 }
        ensures { result ≡ arms.answers (site_layout self.now) (core_of tables.now) name stripe }
    {
        match self.leaf_at(&tables.order, name, stripe) {
            Some(leaf) => tables.leaf_answers(leaf),
            None => false,
        }
    }

    /// Whether a call failed on the leaf on which an arm keeps what belongs to a stripe.
    pub fn fails(&self, tables: &Tables, failed: &[u64], name: ArmName, stripe: u64) -> bool
        requires stripe { stripe < 2 ^ 49 }
        ensures { result ≡ arms.fails (site_layout self.now) (core_of tables.now) failed.now name stripe }
    {
        match self.leaf_at(&tables.order, name, stripe) {
            Some(leaf) => has_number(failed, leaf),
            None => false,
        }
    }

    /// Whether an arm keeps what belongs to a stripe on a leaf.
    pub fn lies_at(&self, tables: &Tables, name: ArmName, stripe: u64, leaf: u64) -> bool
        requires stripe { stripe < NUMBERS }
        ensures yes { result ≡ true → arms.leaf_at (site_layout self.now) (core_of tables.now).order name stripe ≡ Some leaf }
        ensures no { result ≡ false → arms.leaf_at (site_layout self.now) (core_of tables.now).order name stripe ≡ Some leaf → ⊥ }
    {
        match self.leaf_at(&tables.order, name, stripe) {
            Some(found) => found == leaf,
            None => false,
        }
    }

    /// The first arm of a list that answers at a stripe.
    fn first_answering(&self, tables: &Tables, names: &[ArmName], stripe: u64) -> Option<ArmName>
        requires stripe { stripe < NUMBERS }
        ensures { result ≡ find (λ n. arms.answers (site_layout self.now) (core_of tables.now) n stripe) names.now }
    {
        for name in names {
            if self.answers(tables, *name, stripe) {
                return Some(*name);
            }
        }
        None
    }

    /// The first arm of a list that answers at a stripe and is clean for a birth.
    fn first_clean(
        &self,
        tables: &Tables,
        names: &[ArmName],
        stripe: u64,
        birth: u64,
    ) -> Option<ArmName>
        requires stripe { stripe < NUMBERS }
        ensures { result ≡ find (λ n. arms.answers (site_layout self.now) (core_of tables.now) n stripe && arms.is_clean (core_of tables.now) birth n) names.now }
    {
        for name in names {
            if self.answers(tables, *name, stripe) && !tables.is_logged(*name, birth) {
                return Some(*name);
            }
        }
        None
    }

    /// The arm from which a column of a block is read.
    pub fn reading(&self, tables: &Tables, held: Held, column: u32) -> Option<ArmName>
        requires stripe { held.first < NUMBERS }
        requires column { column < self.now.geometry.g }
        ensures { result ≡ arms.reading (site_layout self.now) (core_of tables.now) held column }
    {
        let names = names_of(&tables.order, self.slot_of(held.first, column) as usize);
        match self.first_clean(tables, names, held.first, held.birth) {
            Some(name) => Some(name),
            None => self.first_answering(tables, names, held.first),
        }
    }
}
