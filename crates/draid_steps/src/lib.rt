//! The kinds of event of a metaslab that need no loan, over ordered maps: each is done exactly where it is legal.

#![tactic(auto)]

pub mod blocks;
pub mod columns;
pub mod commits;
pub mod fetch;
pub mod groups;
pub mod leaves;
mod room;
pub mod tickets;
