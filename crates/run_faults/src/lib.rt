//! What runs in tables of two forms have in common: why an event is refused, decided from what a table of the instances tells, and the names of the instances.
#![tactic(auto)]

mod expand;
mod fault_names;
mod names;
mod start;

pub use expand::{Found, expand_fault, fault_before_names};
pub use fault_names::fault_name;
pub use names::{fault_of_names, fault_without_room, plant, take_names};
pub use start::start_fault;
