//! Lanes that may not run side by side: two that name an object, or two that have a rebuild or a scrub.

#![tactic(auto)]

mod mending;
mod objects;

pub use mending::two_mend;
pub use objects::least_clash;
