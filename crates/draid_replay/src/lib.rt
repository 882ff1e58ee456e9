//! Histories of a metaslab on its maps: each event is done exactly where it is legal, and a history up to the first that is not.

#![tactic(auto)]

mod events;
mod history;
mod laws;
mod new;

pub use events::advance;
pub use history::{ReplayFault, replay};
pub use laws::numbers_stay_small;
pub use new::new_world;
