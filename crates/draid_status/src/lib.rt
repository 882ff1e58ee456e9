//! What `status` tells of an open pool.

#![tactic(auto)]

mod replies;
mod viewing;

pub use replies::reply_to_status;
pub use viewing::view;
