//! Where a distributed spare keeps its slot's sectors, when the slot that it borrows from has a spare
//! in its turn.
#![tactic(auto)]

mod chain;
mod laws;

pub use chain::{at_spare, has_column, holder, links, slice_holder};
pub use laws::{
    chains_end, chains_follow, chains_lead_back, chains_move, holders_are_slots, holders_differ,
    holders_have_no_column, slices_have_one_holder,
};
