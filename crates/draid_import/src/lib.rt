//! A pool is imported from what was given back to a shelf: its uberblock is found, each metaslab is opened from the
//! record of the group that it names, and of each object the newest block counts.

#![tactic(auto)]

mod checking;
mod fault;
mod importing;
mod laws;
mod pointing;
mod reopening;
mod replies;
mod standing;

pub use fault::{ImportFault, OpenFault, OpenRefused};
pub use importing::import;
pub use laws::{finds_the_same_before_a_flush, imports_find_one_thing};
pub use reopening::reopen;
pub use replies::{ImportStop, reply_to_import};
pub use standing::opened_shards_stand;
