//! The choice of the metaslab that a new block goes to, among the room that each has.

#![tactic(auto)]

mod chooser;
mod first;

pub use chooser::Chooser;
pub use first::first_fit;
