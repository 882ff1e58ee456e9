//! The state of a metaslab as plain data over ordered maps, and how its parts are looked up and changed.

#![tactic(auto)]

pub mod answering;
pub mod arms;
mod errors;
mod lying;
mod reads;
pub mod sets;
mod site;
pub mod tables;
mod world;

pub use errors::capped;
pub use site::Site;
pub use world::{Arm, Detached, Image, Lent, Tables, World, WorldPass};
