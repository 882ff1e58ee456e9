//! A pass over the slots of a metaslab, as it begins and as it ends: the arms that it takes as targets, their logs, and the
//! room that both need.

#![tactic(auto)]

mod ends;
mod laws;
mod logs;
mod losses;
mod plans;
mod targets;

pub use ends::end;
pub use laws::slots_stay;
pub use losses::lose_marked;
pub use plans::{plan, room};
pub use targets::has_target;
