//! Laws: a session keeps the book beside a checkpoint. So what a rewind gives back is known from the replies alone.

#![tactic(auto)]

mod laws;

pub use laws::{
    checkpoints_stand, marked_endings_keep_the_book, marked_lines_go_back,
    marked_sections_keep_the_book, sessions_keep_the_marked_book,
};
