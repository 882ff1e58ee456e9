//! A pass over one metaslab: it is planned, made ready, ended and cancelled, each call as an event of the metaslab's state.

#![tactic(auto)]

mod cancelling;
mod ending;
mod fault;
mod flushing;
mod laws;
mod owing;
mod planning;
mod readying;

pub use cancelling::cancel;
pub use ending::{Ended, done};
pub use fault::{NotYet, PlanFault};
pub use laws::lacking_targets_are_told;
pub use planning::plan;
pub use readying::ready;
