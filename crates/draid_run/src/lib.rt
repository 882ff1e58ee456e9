//! The top call: a script of commands from a source, run on the pool of a shelf, with its replies to a sink.

#![tactic(auto)]

mod answer;
mod books;
mod closing;
mod failures;
mod kept;
mod lanes;
mod laws;
mod opening;
mod origins;
mod rebalancing;
mod repairing;
mod replies;
mod sections;
mod serve;
mod top;
mod turns;
mod workloads;

pub use books::{runs_keep_the_book, runs_keep_the_marked_book};
pub use draid_exits::{RecordName, Status};
pub use draid_print::LaneReplies;
pub use failures::runs_without_failures_end_well;
pub use kept::known_objects_are_read;
pub use laws::{
    crashed_pools_are_found_again, new_shelves_have_no_pool, runs_follow_one_another,
    runs_stay_legal, undisturbed_runs_are_done,
};
pub use origins::{known_pools_have_a_book, new_shelves_keep_the_book, told_pools_are_reached};
pub use sections::{NoSections, Sections, SectionsBy};
pub use top::{end_run, run};
pub use turns::{each_line_is_a_turn, runs_are_sessions, runs_without_sections_stay_outside};
