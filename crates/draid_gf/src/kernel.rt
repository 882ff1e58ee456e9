//! Sums over whole columns of bytes: 32 places at a time, and a plain loop for the rest.
ghost use Rattle.std.specs.Prelude.{◌≡◌, ◌<◌, ◌≤◌, bit_xor, length};
ghost use Rattle.std.specs.Simd.Lanes.{zip2};
ghost use Rattle.draid_gf.specs.Field.{field_product};
ghost use Rattle.draid_gf.specs.Lanes.{IsAdded};

use crate::element::mul;
use crate::factor::Factor;
use std::simd::prelude::*;

/// Adds `from` to `to`, byte by byte. The two are equally long.
pub fn xor_into(to: &mut [u8], from: &[u8])
    requires { length to.old ≡ length from.now }
    ensures { to.new ≡ zip2 bit_xor to.old from.now }
{
    let at = xor_vectors(to, from);
    xor_bytes(to, from, at);
}

/// Adds `by` times `from` to `to`, byte by byte. The two are equally long.
pub fn mul_into(to: &mut [u8], by: u8, from: &[u8])
    requires { length to.old ≡ length from.now }
    ensures { to.new ≡ zip2 (λ t f. bit_xor t (field_product by f)) to.old from.now }
{
    let at = mul_vectors(to, &Factor::new(by), from);
    mul_bytes(to, by, from, at);
}

// Adds the front as far as whole vectors go, and says how far that is.
fn xor_vectors(to: &mut [u8], from: &[u8]) -> usize
    requires { length to.old ≡ length from.now }
    ensures { IsAdded bit_xor from.now to.old to.new 0 result }
{
    let mut at = 0;
    'vectors: while to.len() - at >= 32 {
        let sums = u8x32::from_slice(&to[at..]) ^ u8x32::from_slice(&from[at..]);
        sums.copy_to_slice(&mut to[at..]);
        at += 32;
    }
    at
}

fn mul_vectors(to: &mut [u8], factor: &Factor, from: &[u8]) -> usize
    requires { length to.old ≡ length from.now }
    ensures { IsAdded (λ t f. bit_xor t (field_product factor.now f)) from.now to.old to.new 0 result }
{
    let mut at = 0;
    'vectors: while to.len() - at >= 32 {
        let products = factor.times(u8x32::from_slice(&from[at..]));
        let sums = u8x32::from_slice(&to[at..]) ^ products;
        sums.copy_to_slice(&mut to[at..]);
        at += 32;
    }
    at
}

// The plain sums from `at` on, which are the definition.
fn xor_bytes(to: &mut [u8], from: &[u8], at: usize)
    requires long { length to.old ≡ length from.now }
    requires inside { at ≤ length to.old }
    ensures { IsAdded bit_xor from.now to.old to.new at (length to.old) }
{
    for i in at..to.len() {
        to[i] ^= from[i];
    }
}

fn mul_bytes(to: &mut [u8], by: u8, from: &[u8], at: usize)
    requires long { length to.old ≡ length from.now }
    requires inside { at ≤ length to.old }
    ensures { IsAdded (λ t f. bit_xor t (field_product by f)) from.now to.old to.new at (length to.old) }
{
    for i in at..to.len() {
        to[i] ^= mul(by, from[i]);
    }
}
