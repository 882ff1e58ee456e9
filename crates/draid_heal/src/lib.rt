//! A scrub's block that was restored lands on each arm that has other bytes.

#![tactic(auto)]

mod arms;
mod block;
mod kept;
mod landing;
mod row;
mod rows;
mod settle;

pub use landing::land;
