//! Passes on the maps of a metaslab's state: planned, let run and ended, each exactly where that is legal; and what every landing
//! of a loan looks up.

#![tactic(auto)]

mod blocks;
mod ends;
mod landings;
mod left;
mod logs;
mod plans;
mod starts;
mod targets;

pub use blocks::block_segments;
pub use ends::{cancel, done};
pub use landings::{any_answers, kept, landing};
pub use left::{is_block, is_heal, is_lent, next_stripe};
pub use plans::plan;
pub use starts::ready;
