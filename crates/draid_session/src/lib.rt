//! What a session is: the parts of an open pool, what one hold of a lock sees and does, and what each command does by
//! its holds.

#![tactic(auto)]

mod crashes;
mod decides;
mod lanes;
mod laws;
mod scrubs;

pub use crashes::{crashed_pools_are_found_again, known_shelves_stay_known};
pub use decides::{Deciders, Decides};
pub use lanes::{
    lanes_leave_logs_once_present, lanes_wait_for_three_syncs, readable_fetches_give_bytes,
    undisturbed_lanes_are_whole,
};
pub use laws::{
    agents_make_slots_whole, arms_change_everywhere_or_nowhere, books_give_back_what_was_kept,
    broken_commands_end_failed, checkpoints_come_back, closing_groups_are_synced,
    committed_groups_stay, endings_keep_the_book, few_broken_slots_are_rebuilt,
    groups_leave_logs_once_present, idle_pools_are_synced, journals_are_numbered,
    lanes_may_interleave, marked_books_go_back, no_space_means_no_room, readable_objects_are_read,
    rebuilds_go_on, rebuilds_wait_for_three_syncs, rebuilt_arms_miss_nothing,
    rebuilt_failures_are_borne, rewinds_go_back, sections_keep_beginnings, sections_keep_the_book,
    sessions_keep_the_book, statuses_show_whole_slots, undisturbed_rebuilds_are_whole,
    undisturbed_scrubs_are_whole, whole_slots_bear_failures, writes_that_fit_are_done,
};
pub use scrubs::{
    right_blocks_are_left_alone, second_scrubs_repair_nothing, sound_blocks_are_left_alone,
    sound_pools_are_left_alone,
};
