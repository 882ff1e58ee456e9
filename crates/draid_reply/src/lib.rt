//! The reply to each command, and the line that it is printed as.

#![tactic(auto)]

mod agent;
mod reply;
mod texts;

pub use reply::{AgentErrors, Reply, reply_text};
