//! Arms join and leave the slots of a metaslab, over ordered maps, each exactly where that is legal: what loses its place is kept, and
//! spares that come to lie elsewhere are made good anew.

#![tactic(auto)]

mod changes;
mod keeping;
mod moves;
mod rules;
mod slots;

pub use changes::{attach, detach};
