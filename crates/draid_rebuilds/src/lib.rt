//! The landing of a rebuild's loan on the maps of a metaslab's state, done exactly where that is legal.

#![tactic(auto)]

mod landings;
mod mending;
mod stripes;

pub use stripes::land_stripe;
