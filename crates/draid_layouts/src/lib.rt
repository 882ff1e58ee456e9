//! The layouts of a pool's metaslabs, as the state machine wants them.
#![tactic(auto)]

mod laws;

pub use laws::{homes_are_holders, metaslabs_have_layouts};
