//! A scrub's block: it is lent, each of its arms that answers is read, and it is restored by its digest.

#![tactic(auto)]

mod choosing;
mod idle;
mod laws;
mod loans;
mod parts;
mod reading;
mod rooms;
mod solving;

pub use laws::lent_blocks_are_readable;
pub use loans::lend;
pub use solving::solve;
