//! Holds of locks put together: the calls of one lane in several turns, and lanes in threads.

#![tactic(auto)]

mod all;
mod calls;
mod lanes;
mod laws;
mod passes;

pub use all::{Unstarted, run_all};
pub use calls::{Call, call_in, make_calls};
pub use lanes::{Lane, Work, run_and_close, run_lanes};
pub use laws::{calls_are_holds, holds_stand_in_order, lanes_go_on, lanes_go_turn_by_turn};
pub use passes::{close_each, join_each, split_each};
