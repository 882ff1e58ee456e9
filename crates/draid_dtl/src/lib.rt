//! Dirty time logs: the transaction groups that an arm may have missed (OpenZFS, `vdev.c`).

#![tactic(auto)]

mod log;
mod missed;

pub use log::Log;
pub use missed::{group, mirror};
