//! A lock that is served in order. Its history is the list of the values as its holds left them: each
//! hold stands in it once, and each caller's holds in their order.

#![tactic(auto)]

mod pass;
mod past;
mod rule;
mod span;
mod stand;
mod turn;
mod view;

pub use pass::Pass;
pub use past::Past;
pub use span::Span;
pub use stand::{Act, Stand};
pub use turn::{Refused, Turn};
