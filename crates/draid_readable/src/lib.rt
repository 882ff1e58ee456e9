//! The columns of a block that were read, by a state of its metaslab.

#![tactic(auto)]

mod laws;

pub use laws::read_blocks_are_readable;
