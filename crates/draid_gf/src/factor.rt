//! Products of a factor with the bytes of a vector, by two look-ups of 16 each.
ghost use Rattle.std.specs.Prelude.{◌≡◌, ℕ, ◌*◌, ◌/◌, ◌%◌, ◌<◌, ◌≤◌, map, slice_index};
ghost use Rattle.draid_gf.specs.Field.{field_product};
ghost use Rattle.draid_gf.specs.Lanes.{HasLanes, returned_by_four};

use crate::element::mul;
use std::marker::Model;
use std::simd::prelude::*;

/// A factor of many products: it keeps those with each byte whose high half is 0 and with each whose
/// low half is 0.
#[derive(Drop)]
pub struct Factor {
    by: u8,
    low: u8x32,
    high: u8x32,
    ghost lows: { HasLanes 32 low (λ k. field_product by (k % 16)) },
    ghost highs: { HasLanes 32 high (λ k. field_product by (16 * (k % 16))) },
}

impl Model for Factor {
    ghost use Rattle.std.specs.Prelude.{ℕ};

    ghost Value = { ℕ };

    ghost view = { λ f. f.by };
}

impl Factor {
    /// The factor `by`.
    pub fn new(by: u8) -> Factor
        ensures { result ≡ by }
    {
        Factor {
            by,
            low: twice(&multiples(by, 1)),
            high: twice(&multiples(by, 16)),
        }
    }

    pub fn by(&self) -> u8
        ensures { result ≡ self.now }
    {
        self.by
    }

    /// The products with the lanes. A byte is the sum of its two halves.
    #[inline(always)]
    pub fn times(&self, lanes: u8x32) -> u8x32
        ensures { result ≡ map (field_product self.now) lanes }
    {
        self.by_low(lanes) ^ self.by_high(lanes)
    }

    #[inline(always)]
    fn by_low(&self, lanes: u8x32) -> u8x32
        ensures { HasLanes 32 result (λ k. field_product self.now (slice_index lanes k % 16)) }
    {
        self.low.swizzle_dyn_within::<16>(lanes & u8x32::splat(15))
    }

    #[inline(always)]
    fn by_high(&self, lanes: u8x32) -> u8x32
        ensures { HasLanes 32 result (λ k. field_product self.now (16 * (slice_index lanes k / 16))) }
    {
        self.high.swizzle_dyn_within::<16>(lanes >> u8x32::splat(4))
    }
}

// What comes back of the two bits that leave a byte as it is multiplied by 4: so many times x^8.
const RETURNED: [u8; 16] = [0, 0x1d, 0x3a, 0x27, 0, 0, 0, 0, 0, 0, 0, 0, 0, 0, 0, 0];

/// Four times each lane.
#[inline(always)]
pub fn four_times(lanes: u8x32) -> u8x32
    ensures { result ≡ map (field_product 4) lanes }
{
    (lanes << u8x32::splat(2)) ^ returned(lanes)
}

#[inline(always)]
fn returned(lanes: u8x32) -> u8x32
    ensures { HasLanes 32 result (λ k. returned_by_four (slice_index lanes k / 64)) }
{
    twice(&RETURNED).swizzle_dyn_within::<16>(lanes >> u8x32::splat(6))
}

// The products with 0, `step`, .., 15 times `step`.
fn multiples(by: u8, step: u8) -> [u8; 16]
    requires { step ≤ 16 }
    ensures { (k : ℕ) → k < 16 → slice_index result k ≡ field_product by (step * k) }
{
    let mut products = [0; 16];
    for i in 0..16 {
        products[i] = mul(by, step * i as u8);
    }
    products
}

#[inline(always)]
fn twice(table: &[u8; 16]) -> u8x32
    ensures { HasLanes 32 result (λ k. slice_index table.now (k % 16)) }
{
    u8x16::from_slice(table).swizzle([
        0, 1, 2, 3, 4, 5, 6, 7, 8, 9, 10, 11, 12, 13, 14, 15, 0, 1, 2, 3, 4, 5, 6, 7, 8, 9, 10, 11,
        12, 13, 14, 15,
    ])
}
