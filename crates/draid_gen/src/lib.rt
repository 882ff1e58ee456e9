//! The script of a workload: a pool, blocks written by four lanes, a disk lost and replaced, and all of it read again.

#![tactic(auto)]

mod laws;
mod parts;
mod script;
mod words;

pub use laws::lines_are_read;
pub use script::workload;
