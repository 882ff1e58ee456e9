//! An open pool is given back to its shelf: after a sync where something of it isn't safe, or as it is, with a crash.

#![tactic(auto)]

mod replies;
mod syncing;
mod unsynced;

pub use replies::{ExportRefused, reply_to_crash, reply_to_export};
pub use syncing::{has_unsynced, sync_for_export};
