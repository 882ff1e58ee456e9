//! An open pool: what it is made of and what it stands for; its metaslabs, which are held one at a time, and looks at
//! their rooms; its groups, each of which is closed, sealed and committed in all of them; and how its devices are given back.

#![tactic(auto)]

mod cell;
mod closing;
mod committing;
mod fault;
mod grouping;
mod metaslabs;
mod own;
mod owned;
mod phases;
mod pool;
mod records;
mod replies;
mod returning;
mod room;
mod rounds;
mod sealing;
mod syncing;
mod telling;
mod vdev;

pub use cell::Cell;
pub use closing::{BIRTH_GROUPS, close_group};
pub use committing::commit;
pub use fault::{CloseFault, SealFault, Sealed, SyncFault, Synced, Syncing};
pub use grouping::{GROUPS, PASSES};
pub use metaslabs::Metaslabs;
pub use own::Own;
pub use owned::Owned;
pub use phases::{begin_sync, finish_group, go_on_sync, sync_groups};
pub use pool::{EVENTS, Pool};
pub use records::{record_of, write_to};
pub use replies::reply_to_sync;
pub use returning::{close, give_areas, give_back, into_kit, take_areas};
pub use room::{LookOp, Seen, SeenRooms, look_for_room};
pub use rounds::close_each;
pub use sealing::seal;
pub use vdev::vdev_name;
