//! Rebuilds of a metaslab: the stripes of a pass are lent, their missing columns solved, and landed on the pass's targets.

#![tactic(auto)]

mod aiming;
mod arms;
mod columns;
mod landing;
mod laws;
mod lending;
mod loans;
mod losing;
mod mending;
mod naming;
mod reading;
mod rooms;
mod solving;
mod sources;
mod targets;

pub use landing::land;
pub use laws::{
    loans_begin_right, missing_columns_are_listed, solved_columns_are_right, solved_loans_stand,
    sources_taint, stripes_are_landed, stripes_are_lent, stripes_are_mended, stripes_land_apart,
    targets_are_no_sources,
};
pub use loans::lend;
pub use solving::solve;
