//! Sealing a metaslab's state and opening it again, on its maps: each is done exactly where it is legal.

#![tactic(auto)]

mod copies;
mod openings;
mod seals;

pub use copies::{Copying, copy_tables};
pub use openings::reopen;
pub use seals::seal;
