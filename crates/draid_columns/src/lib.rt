//! Rows of a column on a leaf of a rack: written, read, and leaves flushed, with what stays as it was.

#![tactic(auto)]

mod flush;
mod rows;

pub use flush::flush_leaves;
pub use rows::{Rows, read_rows, write_rows};
