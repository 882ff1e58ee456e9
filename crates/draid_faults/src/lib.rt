//! How devices in memory fail: which of their calls, and what a crash leaves of what they wrote.

#![tactic(auto)]

mod calls;
mod crash;
mod fuse;

pub use calls::Calls;
pub use crash::{CrashRule, complement, leave};
pub use fuse::Fuse;
