//! Files of the system as devices: readers and writers as the source of a script and the sink of its replies, and a folder
//! as the shelf of a pool. What a file holds is trusted.

#![tactic(auto)]

mod area;
mod device;
mod devices;
mod folder;
mod input;
mod kits;
mod leaf;
mod making;
mod name;
mod opening;
mod output;
mod rack;
mod shelf;

pub use area::FileArea;
pub use input::Input;
pub use output::Output;
pub use rack::FileRack;
pub use shelf::FileShelf;
