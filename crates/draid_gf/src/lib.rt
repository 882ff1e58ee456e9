//! The field of 256 elements in which RAID-Z computes its parity (OpenZFS, `vdev_raidz.c`).
//!
//! A byte is a polynomial over two elements, bit e standing for x^e. The sum of two bytes is their
//! exclusive or; a product is taken modulo x^8 + x^4 + x^3 + x^2 + 1 (0x11d). In this field 2 is x, and
//! its powers are all bytes but 0.
#![tactic(auto)]

mod element;
mod factor;
mod kernel;
mod law;
mod table;

pub use element::{inv, mul, pow2};
pub use factor::{Factor, four_times};
pub use kernel::{mul_into, xor_into};
pub use law::field_laws;
