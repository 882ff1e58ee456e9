//! A pool is created: the devices are made on a shelf, each metaslab is opened over its own, and group 1 is committed.

#![tactic(auto)]

mod fault;
mod metaslab;
mod opening;
mod replies;

pub use fault::{CreateFault, MetaslabRefused};
pub use metaslab::create_metaslab;
pub use opening::create;
pub use replies::{Made, reply_to_create};
