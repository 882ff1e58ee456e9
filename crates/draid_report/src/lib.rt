//! What `status` tells of a pool, and the two texts that it is printed as.

#![tactic(auto)]

mod json;
mod text;
mod view;

pub use json::status_json;
pub use text::status_text;
pub use view::{ArmView, MetaslabView, PassView, View};
