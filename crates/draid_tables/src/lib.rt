//! What a pool has of its objects: dealt out to lanes by their numbers, and put together again.

#![tactic(auto)]

mod lists;
mod owns;
mod tables;

pub use lists::lists_of;
pub use owns::{deal_owns, room_of, take_each};
pub use tables::{deal_objects, take_objects};
