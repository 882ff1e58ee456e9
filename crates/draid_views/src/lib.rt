//! What `status` tells of the shards of a pool: of each by itself, and of the arms, which all of them have.

#![tactic(auto)]

mod arms;
mod metaslabs;

pub use arms::slot_views;
pub use metaslabs::{last_open_group, metaslab_views};
