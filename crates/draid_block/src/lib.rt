//! Blocks over the stripes of a geometry: a block cut into columns with their parity, and columns
//! that were read put together again, known by the digest of the block's pointer.

#![tactic(auto)]

mod encoded;
mod front;
mod hashing;
mod laws;
mod many;
mod restoring;
mod search;
mod shape;
mod solve;

pub use encoded::Encoded;
pub use laws::{answers_are_one, columns_are_one, sets_are_in_order};
pub use many::{Solve, solve_many};
pub use restoring::restore;
pub use solve::{Fetched, SolveFault, solve_block};
