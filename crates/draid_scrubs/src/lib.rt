//! The landing of a scrub's loan on the maps of a metaslab's state, done exactly where that is legal.

#![tactic(auto)]

mod healing;
mod patches;
mod scrubs;
mod wholes;

pub use scrubs::land_block;
