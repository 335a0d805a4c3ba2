//! The places and labels of data items, the label files of runs, and their laws: each law is the contract of a function that does nothing.
//!
//! A label tells where in the derivation of a run an item was made, so that two labels and a view tell whether one item depends on the other.
//! A chain of steps along one cycle of the grammar is told as one number.
#![tactic(auto)]

mod bounds;
mod continuing;
mod examples;
mod files;
mod places;
mod reading;
mod runs;
mod spelling;

pub use bounds::{bound_law, digits_law, length_law, room_law};
pub use continuing::{continuing_law, cycles_law, derives_law, period_law};
pub use examples::labels_are_worked;
pub use files::{
    cut_entries_law, cut_law, file_grows_law, file_step_law, good_file_law, one_reading_law,
};
pub use places::{one_visit_law, place_law, prefix_law};
pub use reading::{parts_law, reading_law};
pub use runs::{instance_law, label_law, one_item_law, prefix_in_run_law};
pub use spelling::{prefix_free_law, whole_law};
