//! The free space of a metaslab: which stripes are free, and where the next block goes.

#![tactic(auto)]

mod due;
mod fault;
mod space;
mod spot;

pub use fault::SpaceFault;
pub use space::{Deferred, Space};
