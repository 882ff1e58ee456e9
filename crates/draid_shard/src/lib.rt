//! One metaslab over its devices: which stripes are free, where its blocks stand, and the states of the metaslab for
//! which it stands.

#![tactic(auto)]

mod blocks;
mod dropping;
mod errors;
mod fault;
mod groups;
mod laws;
mod loan;
mod logs;
mod looks;
mod losing;
mod places;
mod rooms;
mod shard;
mod spots;

pub use blocks::release;
pub use dropping::drop_loan;
pub use errors::more_errors;
pub use fault::Shut;
pub use laws::{calls_keep_what_stands, valid_shards_have_states, worn_is_what_is_owed};
pub use loan::{
    KeptLoan, LandingRoom, LendFault, Lent, LentBlock, LentStripe, ReadArm, ReadingRoom, Source,
    Spot, taken_out,
};
pub use logs::miss;
pub use losing::{has_failed, missed_marks};
pub use places::{ColumnRows, Extent, StripePlace, extent_of};
pub use shard::Shard;
pub use spots::list_spots;
