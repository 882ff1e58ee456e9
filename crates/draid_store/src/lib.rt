//! The objects of a pool: their bytes are written to blocks of its metaslabs, read again, summed and freed, and sectors
//! are damaged. Each call is a list of holds of metaslabs, each of which does one event or none.

#![tactic(auto)]

mod beginning;
mod damaging;
mod fault;
mod fetching;
mod filling;
mod finishing;
mod freeing;
mod putting;
mod reading;
mod replies;
mod store;
mod summing;
mod writing;

pub use beginning::{BeginOp, begin_write};
pub use damaging::damage;
pub use fault::{DamageFault, FreeFault, StoreFault, SumFault};
pub use fetching::{FetchOp, fetch_object};
pub use filling::fill;
pub use finishing::{FinishOp, end_write};
pub use freeing::{FreeOp, free, free_earlier, free_object};
pub use putting::{PutOp, put_all};
pub use reading::{read, read_object};
pub use replies::{reply_to_damage, reply_to_free, reply_to_read, reply_to_sum, reply_to_write};
pub use store::store_block;
pub use summing::{sum, sum_objects};
pub use writing::{write, write_block, write_encoded, write_object};
