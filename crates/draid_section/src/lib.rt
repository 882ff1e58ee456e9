//! A section of lanes: a pool is put under locks, lanes run their jobs over these, and it is put together again.

#![tactic(auto)]

mod lanes;
mod laws;
mod locks;
mod seats;
mod section;
mod turning;

pub use lanes::run_in_lanes;
pub use laws::{
    areas_come_back_later, failed_areas_stay_counted, jobs_were_done, lanes_come_together,
    lanes_teach_together, told_sections_are_answered,
};
pub use locks::{Locks, Unlocked, deal_each, lock_each, rooms, unlock_each};
pub use turning::{UberLock, UberUnlocked, lock_uber, split_uber, unlock_uber};
