//! A list of bytes on a device: what it reads, what a write leaves, what a crash may leave, and when it may
//! fail.

#![tactic(auto)]

mod area;
mod cells;
mod laws;
mod memory;

pub use area::Area;
pub use draid_names::DeviceFault;
pub use laws::{changes_follow_one_another, crashes_follow_one_another, crashes_keep_what_is_firm};
pub use memory::MemoryArea;
