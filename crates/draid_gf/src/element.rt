//! Products, inverses and powers of single bytes.
ghost use Rattle.std.specs.Prelude.{◌≡◌, ◌<◌, ◌≢◌};
ghost use Rattle.draid_gf.specs.Field.{IsRemainder, field_inverse, field_power, field_product, polynomial_product};

use crate::table::{INVERSES, POWERS};

/// The product of two bytes.
#[inline]
pub fn mul(a: u8, b: u8) -> u8
    ensures value { result ≡ field_product a b }
    ensures remainder { IsRemainder (polynomial_product a b) result }
{
    let mut product = 0;
    // Horner's rule over the terms of `b`, the highest first
    for e in (0..8u32).rev() {
        product = double(product) ^ ((b >> e) & 1) * a;
    }
    product
}

/// The byte whose product with `a` is 1; `a` is not 0.
#[inline]
pub fn inv(a: u8) -> u8
    requires { a ≢ 0 }
    ensures value { result ≡ field_inverse a }
    ensures inverse { field_product a result ≡ 1 }
{
    INVERSES[a as usize]
}

/// The power of 2 with exponent `e`, which repeats itself at each 255.
#[inline]
pub fn pow2(e: u32) -> u8
    ensures { result ≡ field_power 2 e }
{
    POWERS[(e % 255) as usize]
}

// Twice `a`: x^8 that leaves the byte comes back as x^4 + x^3 + x^2 + 1.
#[inline]
fn double(a: u8) -> u8
    ensures { result ≡ field_product 2 a }
{
    (a << 1) ^ (a >> 7) * 0x1d
}
