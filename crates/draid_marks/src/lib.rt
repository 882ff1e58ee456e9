//! What a metaslab's slots and entries say of a group: the arms on silent leaves, the logs that the marked ones get the
//! group into, and how many of its blocks are thin.

#![tactic(auto)]

mod counts;
mod lying;
mod missed;
mod silent;

pub use counts::{thin, tickets_upto};
pub use lying::lies_on;
pub use missed::miss_marked;
pub use silent::{mark_silent, silent_marks};
