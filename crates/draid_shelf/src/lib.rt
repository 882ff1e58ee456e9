//! Where a pool's devices stand between two runs.

#![tactic(auto)]

mod devices;
mod kit;
mod kits;
mod memory;
mod place;
mod places;
mod plan;
mod shelf;

pub use draid_faults::CrashRule;
pub use draid_names::DeviceFault;
pub use kit::Kit;
pub use memory::MemoryShelf;
pub use place::Place;
pub use shelf::{METASLABS, Shelf};
