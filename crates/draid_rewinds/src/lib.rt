//! A checkpoint of a pool is made, gone back to, and given up.

#![tactic(auto)]

mod fault;
mod giving;
mod making;
mod replies;
mod rewinding;
mod sweeping;
mod tables;
mod taking;

pub use fault::{BackFault, Discarded, Rewound, TakeFault};
pub use replies::{reply_to_checkpoint, reply_to_discard, reply_to_rewind};
pub use rewinding::{discard, rewind};
pub use taking::checkpoint;
