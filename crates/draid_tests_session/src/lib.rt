//! Runs of scripts on a shelf in memory, for tests.

#![tactic(auto)]

mod scripts;

pub use scripts::{run_chosen, run_script, source_of, words_of};
