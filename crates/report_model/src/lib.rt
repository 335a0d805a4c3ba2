//! The intake of reports of a run, which come in any order and more than once, and the laws of it: each law is the contract of a function that does nothing.
#![tactic(auto)]

mod examples;
mod laws;

pub use examples::reports_are_worked;
pub use laws::{
    accepted_law, all_ready_law, any_order_law, file_of_more_law, growing_law, in_order_law,
    refused_law, reordered_law, taken_alone_law, taken_law,
};
