//! The hasher of the columns at the front of a block.
ghost use Rattle.std.specs.Prelude.{◌≡◌, ◌≤◌, ◌<◌, ◌+◌, ℕ, List, length};
ghost use Rattle.sha2.specs.Sha256.{sha256};
ghost use Rattle.draid_spec.specs.Geometry.{IsGeometry};
ghost use Rattle.draid_parity.specs.Columns.{column_at};
ghost use Rattle.draid_block.specs.Columns.{Cut};
ghost use Rattle.draid_block.specs.Blocks.{bytes_of, column_len, cut_of, stripe_of};
ghost use Rattle.draid_block.specs.Search.{IsFront};

use crate::shape::part_bytes;
use draid_names::LONGEST_BLOCK;
use draid_parity::Stripe;
use draid_spec::Geometry;
use sha2::{Digest, Sha256};

/// A hasher that has the sectors of a block's first data columns.
#[derive(Clone, Drop)]
pub struct Front {
    hasher: Sha256,
    /// How many data columns it has.
    pub count: u32,
    /// How many bytes of the block it hasn't.
    left: usize,
}

impl Front {
    /// No columns of a block of `len` bytes.
    pub fn new(len: u32) -> Front
        ensures front { (cut : Cut) (columns : List (List ℕ)) → IsFront cut len columns result }
        ensures count { result.count ≡ 0 }
    {
        Front {
            hasher: Sha256::new(),
            count: 0,
            left: len as usize,
        }
    }

    /// Takes the next data column.
    pub fn take(&mut self, geometry: &Geometry, len: u32, column: &[u8])
        requires geometry { IsGeometry geometry.now }
        requires short { len ≤ LONGEST_BLOCK }
        requires more { self.old.count < geometry.now.spec.ndata }
        requires long { length column.now ≡ column_len (cut_of geometry.now) len }
        ensures front { (columns : List (List ℕ)) → IsFront (cut_of geometry.now) len columns self.old
            → column.now ≡ column_at columns (geometry.now.spec.parity + self.old.count)
            → IsFront (cut_of geometry.now) len columns self.new }
        ensures count { self.new.count ≡ self.old.count + 1 }
    {
        let end = part_bytes(geometry, len, self.count).min(self.left);
        self.hasher.update(&column[..end]);
        self.left -= end;
        self.count += 1;
    }

    /// Takes the data columns of a stripe from the next one up to the one before `end`.
    pub fn take_before(&mut self, geometry: &Geometry, len: u32, stripe: &Stripe, end: u32)
        requires geometry { IsGeometry geometry.now }
        requires short { len ≤ LONGEST_BLOCK }
        requires shape { stripe.now ≡ stripe_of (cut_of geometry.now) len stripe.now.columns }
        requires order { self.old.count ≤ end }
        requires end { end ≤ geometry.now.spec.ndata }
        requires front { IsFront (cut_of geometry.now) len stripe.now.columns self.old }
        ensures front { IsFront (cut_of geometry.now) len stripe.now.columns self.new }
        ensures count { self.new.count ≡ end }
    {
        for i in self.count..end {
            self.take(geometry, len, stripe.column(geometry.spec.parity + i));
        }
    }

    /// The digest of the block, of which this has all data columns.
    pub fn digest(self) -> [u8; 32]
        ensures { (cut : Cut) (len : ℕ) (columns : List (List ℕ)) → IsFront cut len columns self
            → self.count ≡ cut.ndata → result ≡ sha256 (bytes_of cut len columns) }
    {
        self.hasher.finalize()
    }
}
