//! Loans of a pass on the maps of a metaslab's state: the next stripe or block is lent, exactly where that is legal.

#![tactic(auto)]

mod failing;
mod lending;
mod readings;
mod sources;

pub use lending::lend;
