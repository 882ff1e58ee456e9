//! The permutations that spread the groups of a pool over its children.
#![tactic(auto)]

mod exchange;
mod laws;
mod perms;
mod words;

pub use exchange::shuffle;
pub use laws::{
    children_are_seeded, positions_stand_apart, rows_are_orders, seeds_fix_permutations,
};
pub use perms::Perms;
