//! The grammar of scripts: which lines are taken, and what they ask for.

#![tactic(auto)]

mod commands;
mod fault;
mod field;
mod keys;
mod laws;
mod line;
mod name;
mod parse;
mod text;
mod word;
mod words;

pub use fault::{LineFault, LineFaultKind, ParseFault};
pub use laws::{
    lane_lines_are_exact, lane_lines_are_read_again, lines_are_exact, lines_are_read_again,
    numbers_are_decimal, words_are_joined,
};
pub use line::{ArmArgument, LaneLine, Line, PoolKeys, StatusFormat};
pub use name::CommandName;
pub use parse::{parse_lane, parse_line};
pub use text::decimal;
