//! The words of the command line: what they ask for.

#![tactic(auto)]

mod command;
mod laws;
mod mode;
mod read;

pub use laws::{other_words_are_refused, sessions_are_taken, workloads_are_taken};
pub use mode::{Mode, WordsFault};
pub use read::read_words;
