//! Changes of a pool's arms, each made in all of its metaslabs or in none: leaves go offline and come back, spares
//! and new disks come to slots, and arms leave them. And that of its version.

#![tactic(auto)]

mod agent;
mod attaching;
mod balancing;
mod detach_reply;
mod detaching;
mod dues;
mod fault;
mod giving;
mod holding;
mod making;
mod need;
mod replacing;
mod replies;
mod reserving;
mod rounds;
mod rules;
mod sparing;
mod switching;
mod upgrade_reply;
mod upgrading;

pub use agent::{GiveFault, give};
pub use balancing::detach_others;
pub use detach_reply::reply_to_detach;
pub use detaching::{DetachFault, detach};
pub use fault::ArmFault;
pub use replacing::replace;
pub use replies::{reply_to_offline, reply_to_online, reply_to_replace, reply_to_spare};
pub use sparing::spare;
pub use switching::{offline, online, switch_leaf};
pub use upgrade_reply::reply_to_upgrade;
pub use upgrading::{UpgradeFault, upgrade};
