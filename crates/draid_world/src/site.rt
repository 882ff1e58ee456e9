ghost use Rattle.std.specs.Prelude.{◌<◌};
ghost use Rattle.draid_map.specs.Place.{IsLayout};
ghost use Rattle.draid_world.specs.Laid.{sector_prop, version_prop};
ghost use Rattle.std.proofs.Props.{props};

use crate::arms::{first_leaf, first_spare, is_among, names_of};
use crate::tables::find;
use draid_machine::{ArmName, Held, Key, Segment};
use draid_names::NUMBERS;
use draid_perm::Perms;
use draid_spec::Geometry;
use std::collections::BTreeMap;

/// A metaslab of a pool.
#[derive(Drop)]
pub struct Site {
    pub geometry: Geometry,
    pub perms: Perms,
    /// Its number, below the pool's metaslabs.
    pub metaslab: u32,
    ghost laid: { IsLayout geometry perms } by { Prim.hlevel (props, version_prop, sector_prop) },
    ghost there: { metaslab < geometry.props.metaslabs },
}

impl Site {
    ghost use Rattle.std.specs.Prelude.{◌≡◌, ◌<◌, ◌^◌, ℕ, true, false};
    ghost use Rattle.draid_machine.specs.Arms as arms;
    ghost use Rattle.draid_machine.specs.Claims as claims;
    ghost use Rattle.draid_chain.specs.Chain.{spare_slot};
    ghost use Rattle.draid_layouts.specs.Layout.{pool_stripe, slice_in};
    ghost use Rattle.draid_world.specs.World.{AreAllLow, held_in, home_at, names_at, site_layout, slot_at};

    /// The stripes of a metaslab.
    pub fn stripes(&self) -> u64
        ensures value { result ≡ (site_layout self.now).stripes }
        ensures few { result < NUMBERS }
    {
        self.geometry.metaslab_stripes()
    }

    /// The number that a stripe of the metaslab has in the pool.
    fn pool_number(&self, stripe: u64) -> u64
        requires stripe { stripe < 2 ^ 49 }
        ensures { result ≡ pool_stripe self.now.geometry self.now.metaslab stripe }
    {
        u64::from(self.metaslab) * self.geometry.metaslab_stripes() + stripe
    }

    /// The slice of the pool that a stripe lies in.
    fn slice_of(&self, stripe: u64) -> u64
        requires stripe { stripe < 2 ^ 49 }
        ensures { result ≡ slice_in self.now.geometry self.now.metaslab stripe }
    {
        let height = u64::from(self.geometry.props.height);
        self.pool_number(stripe) / (height * u64::from(self.geometry.ngroups))
    }

    /// The slot at a spare's position of a slice.
    fn slot_at_spare(&self, slice: u64, spare: u32) -> u32
        ensures { result ≡ spare_slot self.now.perms slice spare }
    {
        let last = self.geometry.spec.children - 1;
        self.perms.child(slice, last.saturating_sub(spare))
    }

    /// The slot on whose first leaf a spare keeps what belongs to a stripe: the one at which its chain of spares ends.
    pub fn home(&self, order: &[Vec<ArmName>], spare: u32, stripe: u64) -> u32
        requires stripe { stripe < 2 ^ 49 }
        ensures { result ≡ home_at (site_layout self.now) (names_at order.now) spare stripe }
    {
        let slice = self.slice_of(stripe);
        let mut slot = self.slot_at_spare(slice, spare);
        for _passed in 0..self.geometry.spec.spares {
            match first_spare(names_of(order, slot as usize)) {
                Some(next) => slot = self.slot_at_spare(slice, next),
                None => return slot,
            }
        }
        slot
    }

    /// The leaf on which an arm keeps what belongs to a stripe.
    pub fn leaf_at(&self, order: &[Vec<ArmName>], name: ArmName, stripe: u64) -> Option<u64>
        requires stripe { stripe < 2 ^ 49 }
        ensures { result ≡ arms.leaf_at (site_layout self.now) (names_at order.now) name stripe }
    {
        match name {
            ArmName::Leaf { leaf } => Some(leaf),
            ArmName::Spare { spare } => {
                if spare >= self.geometry.spec.spares {
                    return None;
                }
                first_leaf(names_of(order, self.home(order, spare, stripe) as usize))
            }
        }
    }

    /// The slot that has a column of a stripe.
    pub fn slot_of(&self, stripe: u64, column: u32) -> u32
        requires stripe { stripe < 2 ^ 49 }
        requires column { column < self.now.geometry.g }
        ensures { result ≡ slot_at (site_layout self.now) stripe column }
    {
        let height = u64::from(self.geometry.props.height);
        let groups = u64::from(self.geometry.ngroups);
        let number = self.pool_number(stripe);
        let group = number / height % groups;
        let index = group * u64::from(self.geometry.g) + u64::from(column);
        let position = (index % u64::from(self.geometry.ndisks)) as u32;
        self.perms.child(number / (height * groups), position)
    }

    /// Whether a leaf is the one on which an arm keeps what belongs to a stripe.
    pub fn is_at(&self, order: &[Vec<ArmName>], name: ArmName, stripe: u64, leaf: u64) -> bool
        requires stripe { stripe < 2 ^ 49 }
        ensures { result ≡ arms.lies (site_layout self.now) (names_at order.now) name stripe leaf }
    {
        match self.leaf_at(order, name, stripe) {
            Some(found) => found == leaf,
            None => false,
        }
    }

    /// Whether a segment is one of a block or a ticket, where its arm keeps it now.
    pub fn is_on(&self, order: &[Vec<ArmName>], segment: &Segment, held: &Held) -> bool
        requires first { held.now.first < NUMBERS }
        ensures yes { result ≡ true → claims.is_on (site_layout self.now) (names_at order.now) segment.now held.now ≡ true }
        ensures no { result ≡ false → claims.is_on (site_layout self.now) (names_at order.now) segment.now held.now ≡ false }
    {
        if segment.column >= self.geometry.g || segment.row >= held.stripes {
            return false;
        }
        let slot = self.slot_of(held.first, segment.column) as usize;
        if !is_among(names_of(order, slot), segment.arm) {
            return false;
        }
        self.is_at(
            order,
            segment.arm,
            held.first + u64::from(segment.row),
            segment.leaf,
        )
    }

    /// Whether a segment is at a place: where its arm keeps now what belongs to its block or ticket.
    pub fn is_at_place(
        &self,
        order: &[Vec<ArmName>],
        held: &BTreeMap<Key, Held>,
        segment: &Segment,
    ) -> bool
        requires low { AreAllLow (held_in held.now.entries) }
        ensures { result ≡ claims.is_at_held (site_layout self.now) (names_at order.now) segment.now (held_in held.now.entries segment.now.key) }
    {
        match find(held, segment.key) {
            Some(held) => self.is_on(order, segment, &held),
            None => false,
        }
    }
}
