//! The blocks and the open writes of a metaslab, the events that it stores, and those that these may still add.

#![tactic(auto)]

mod entries;
mod entry;
mod events;
mod history;
mod laws;
mod listed;
mod live;
mod table;

pub use entries::Entries;
pub use entry::{Entry, key_of};
pub use history::{History, ReserveFault};
pub use laws::{entries_are_few, entries_owe};
pub use live::ListFault;
