//! The replies of a run as they are printed.

#![tactic(auto)]

mod printing;

pub use printing::{LaneReplies, print_lanes, print_reply};
