ghost use Rattle.std.specs.Prelude.{◌≡◌, ◌==◌, ◌<◌, ◌&&◌, ◌||◌, not};
ghost use Rattle.draid_machine.specs.Arms as arms;
ghost use Rattle.draid_world.specs.Lying.{keeps_at};
ghost use Rattle.draid_world.specs.World.{core_of, site_layout};

use crate::arms::{is_among, names_of};
use crate::site::Site;
use crate::world::Tables;
use draid_machine::ArmName;
use draid_names::NUMBERS;

impl Site {
    /// Whether the slot of an arm has a column of a stripe.
    pub fn has_column(&self, tables: &Tables, name: ArmName, stripe: u64) -> bool
        requires stripe { stripe < NUMBERS }
        ensures { result ≡ arms.has_column (site_layout self.now) (core_of tables.now) name stripe }
    {
        for column in 0..self.geometry.g {
            if is_among(
                names_of(&tables.order, self.slot_of(stripe, column) as usize),
                name,
            ) {
                return true;
            }
        }
        false
    }

    /// Whether an arm keeps a sector of its columns in a stripe on a silent leaf.
    fn keeps_silent(&self, tables: &Tables, failed: &[u64], name: ArmName, stripe: u64) -> bool
        requires stripe { stripe < NUMBERS }
        ensures { result ≡ keeps_at (site_layout self.now) (core_of tables.now) (arms.is_silent (core_of tables.now) failed.now) name stripe }
    {
        if !self.has_column(tables, name, stripe) {
            return false;
        }
        match self.leaf_at(&tables.order, name, stripe) {
            Some(leaf) => tables.is_silent(failed, leaf),
            None => false,
        }
    }

    /// Whether an arm lies on a silent leaf.
    pub fn lies_on_silent(&self, tables: &Tables, failed: &[u64], name: ArmName) -> bool
        ensures { result ≡ arms.lies_on (site_layout self.now) (core_of tables.now) (arms.is_silent (core_of tables.now) failed.now) name }
    {
        if let ArmName::Leaf { leaf } = name {
            return tables.is_silent(failed, leaf);
        }
        for stripe in 0..self.stripes() {
            if self.keeps_silent(tables, failed, name, stripe) {
                return true;
            }
        }
        false
    }

    /// Whether an arm keeps a sector of its columns in a stripe on a leaf.
    fn keeps_on(&self, tables: &Tables, leaf: u64, name: ArmName, stripe: u64) -> bool
        requires stripe { stripe < NUMBERS }
        ensures { result ≡ keeps_at (site_layout self.now) (core_of tables.now) (λ m. m == leaf) name stripe }
    {
        self.has_column(tables, name, stripe) && self.is_at(&tables.order, name, stripe, leaf)
    }

    /// Whether an arm lies on a leaf.
    pub fn lies_on(&self, tables: &Tables, leaf: u64, name: ArmName) -> bool
        ensures { result ≡ arms.lies_on (site_layout self.now) (core_of tables.now) (λ m. m == leaf) name }
    {
        if let ArmName::Leaf { leaf: own } = name {
            return own == leaf;
        }
        for stripe in 0..self.stripes() {
            if self.keeps_on(tables, leaf, name, stripe) {
                return true;
            }
        }
        false
    }
}
