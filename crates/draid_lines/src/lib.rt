//! Where the bytes of a script come from and its replies go to, and its lines, one after another.

#![tactic(auto)]

mod lines;
mod sink;
mod source;
mod text;

pub use lines::{Lines, ReadFault};
pub use sink::{MemorySink, Sink};
pub use source::{MemorySource, Source};
pub use text::Text;
