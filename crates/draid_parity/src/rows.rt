//! Bytes of neighbouring rows of a column: one, or those of a vector. The kernels are written once
//! for both; at single bytes they are the plain loops.
ghost use Rattle.std.specs.Prelude.{◌≡◌, ◌∷◌, ◌++◌, ℕ, ◌+◌, ◌<◌, ◌≤◌, List, [], bit_xor, length, map, slice_index};
ghost use Rattle.std.specs.Simd.Lanes.{chunk, put_chunk, zip2};
ghost use Rattle.draid_gf.specs.Field.{field_product, IsByte};

use draid_gf::{Factor, four_times, mul};
use std::simd::prelude::*;

pub trait Rows: Copy {
    /// How many rows.
    ghost COUNT: { ℕ };

    ghost bytes: { Self → List ℕ };

    const COUNT: usize;

    /// The bytes of a column from `at` on.
    fn load(from: &[u8], at: usize) -> Self
        requires { at + COUNT ≤ length from.now }
        ensures value { bytes result ≡ chunk at COUNT from.now }
        ensures bytes { (j : ℕ) → IsByte (slice_index (bytes result) j) };

    /// Puts the bytes there.
    fn store(self, to: &mut [u8], at: usize)
        requires inside { at + COUNT ≤ length to.old }
        requires count { length (bytes self) ≡ COUNT }
        ensures { to.new ≡ put_chunk at to.old (bytes self) };

    fn plus(self, other: Self) -> Self
        ensures { bytes result ≡ zip2 bit_xor (bytes self) (bytes other) };

    fn twice(self) -> Self
        ensures { bytes result ≡ map (field_product 2) (bytes self) };

    fn four_times(self) -> Self
        ensures { bytes result ≡ map (field_product 4) (bytes self) };

    fn times(self, factor: &Factor) -> Self
        ensures { bytes result ≡ map (field_product factor.now) (bytes self) };
}

impl Rows for u8 {
    ghost COUNT = { 1 };

    ghost bytes = { λ byte. byte ∷ [] };

    const COUNT: usize = 1;

    #[inline(always)]
    fn load(from: &[u8], at: usize) -> u8 {
        from[at]
    }

    #[inline(always)]
    fn store(self, to: &mut [u8], at: usize) {
        to[at] = self;
    }

    #[inline(always)]
    fn plus(self, other: u8) -> u8 {
        self ^ other
    }

    #[inline(always)]
    fn twice(self) -> u8 {
        mul(2, self)
    }

    #[inline(always)]
    fn four_times(self) -> u8 {
        mul(4, self)
    }

    #[inline(always)]
    fn times(self, factor: &Factor) -> u8 {
        mul(factor.by(), self)
    }
}

impl Rows for u8x32 {
    ghost COUNT = { 32 };

    ghost bytes = { λ lanes. lanes };

    const COUNT: usize = 32;

    #[inline(always)]
    fn load(from: &[u8], at: usize) -> u8x32 {
        u8x32::from_slice(&from[at..])
    }

    #[inline(always)]
    fn store(self, to: &mut [u8], at: usize) {
        self.copy_to_slice(&mut to[at..]);
    }

    #[inline(always)]
    fn plus(self, other: u8x32) -> u8x32 {
        self ^ other
    }

    // What leaves the byte comes back as x^4 + x^3 + x^2 + 1.
    #[inline(always)]
    fn twice(self) -> u8x32 {
        let leaves = self.simd_ge(u8x32::splat(0x80));
        (self << u8x32::splat(1)) ^ leaves.select(u8x32::splat(0x1d), u8x32::splat(0))
    }

    #[inline(always)]
    fn four_times(self) -> u8x32 {
        four_times(self)
    }

    #[inline(always)]
    fn times(self, factor: &Factor) -> u8x32 {
        factor.times(self)
    }
}

impl Rows for u8x64 {
    ghost COUNT = { 64 };

    ghost bytes = { λ lanes. lanes };

    const COUNT: usize = 64;

    #[inline(always)]
    fn load(from: &[u8], at: usize) -> u8x64 {
        u8x64::from_slice(&from[at..])
    }

    #[inline(always)]
    fn store(self, to: &mut [u8], at: usize) {
        self.copy_to_slice(&mut to[at..]);
    }

    #[inline(always)]
    fn plus(self, other: u8x64) -> u8x64 {
        self ^ other
    }

    // What leaves the byte comes back as x^4 + x^3 + x^2 + 1.
    #[inline(always)]
    fn twice(self) -> u8x64 {
        let leaves = self.simd_ge(u8x64::splat(0x80));
        (self << u8x64::splat(1)) ^ leaves.select(u8x64::splat(0x1d), u8x64::splat(0))
    }

    #[inline(always)]
    fn four_times(self) -> u8x64 {
        joined(four_times(first_half(self)), four_times(second_half(self)))
    }

    #[inline(always)]
    fn times(self, factor: &Factor) -> u8x64 {
        let low = factor.times(first_half(self));
        let high = factor.times(second_half(self));
        joined(low, high)
    }
}

#[inline(always)]
fn joined(low: u8x32, high: u8x32) -> u8x64
    ensures { result ≡ low ++ high }
{
    low.shuffle(
        high,
        [
            0, 1, 2, 3, 4, 5, 6, 7, 8, 9, 10, 11, 12, 13, 14, 15, 16, 17, 18, 19, 20, 21, 22, 23,
            24, 25, 26, 27, 28, 29, 30, 31, 32, 33, 34, 35, 36, 37, 38, 39, 40, 41, 42, 43, 44, 45,
            46, 47, 48, 49, 50, 51, 52, 53, 54, 55, 56, 57, 58, 59, 60, 61, 62, 63,
        ],
    )
}

#[inline(always)]
fn first_half(lanes: u8x64) -> u8x32
    ensures { result ≡ chunk 0 32 lanes }
{
    lanes.extract::<0, 32>()
}

#[inline(always)]
fn second_half(lanes: u8x64) -> u8x32
    ensures { result ≡ chunk 32 32 lanes }
{
    lanes.extract::<32, 32>()
}
