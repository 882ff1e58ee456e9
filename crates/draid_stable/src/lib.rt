//! Records on stable storage: the image that a record says, that each crash leaves it, the making of a record, and the
//! tables that are made of one.

#![tactic(auto)]

mod arms;
mod laws;
mod leaves;
mod marks;
mod opening;
mod sealing;

pub use arms::copied_slots;
pub use laws::{
    flushed_records_stand, listed_blocks_are_in_range, made_records_are_in_range,
    made_records_tell_what_was_written, marks_go_over, records_outlast_crashes, records_say_tables,
    stable_images_outlast_crashes, standing_records_stay, told_arms_are_in_range,
    written_logs_are_in_range,
};
pub use leaves::keep_arms;
pub use marks::lose_targets;
pub use opening::{Tables, read_tables};
pub use sealing::{Head, has_written, record_of_tables, settle};
