//! The exit statuses of a run, and the line that each prints last.

#![tactic(auto)]

mod status;

pub use status::{RecordName, Status, fixed_line, numbered_line};
