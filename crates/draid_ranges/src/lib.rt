//! Sets of numbers below 2^48, kept as runs of consecutive members.

#![tactic(auto)]

mod edit;
mod find;
mod merge;
mod room;
mod run;
mod set;
mod steps;

pub use run::Run;
pub use set::RangeSet;
pub use steps::Steps;
