//! On which items of a label file an item rests, and which items rest on it, from their labels and the label of a view alone.
#![tactic(auto)]

mod direction;
mod entry;
mod law;
mod listing;

pub use direction::Direction;
pub use law::{answers_yes_law, mirror_law};
pub use listing::{Listing, impact, lineage, list};
