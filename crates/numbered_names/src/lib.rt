//! Names made of numbers, for the instances of a run that is made and not recorded, and the events that give them.
#![tactic(auto)]

mod events;
mod names;

pub use events::{expand_event, start_event};
pub use names::{numbered_name, numbered_names};
