//! The blocks of one metaslab: their writing by tickets, fetching, freeing and damage, each call as an event of the
//! metaslab's state.

#![tactic(auto)]

mod damaging;
mod fault;
mod fetching;
mod freeing;
mod laws;
mod outcome;
mod putting;
mod ticket;
mod tickets;

pub use damaging::damage;
pub use fault::{BeginFault, FetchFault, Missed, NotLive};
pub use fetching::fetch;
pub use freeing::free;
pub use laws::fetched_blocks_are_readable;
pub use putting::put;
pub use ticket::Ticket;
pub use tickets::{abort, begin, finish};
