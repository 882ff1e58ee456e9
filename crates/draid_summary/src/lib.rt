//! The line that a workload prints: what its session replied, in numbers and a digest.

#![tactic(auto)]

mod errors;
mod lines;
mod tally;
mod text;

pub use text::summary;
