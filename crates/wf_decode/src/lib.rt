//! Decisions from two labels and the label of a view.
#![tactic(auto)]

mod decision;
mod leg;
mod parting;
mod read;
mod rows;
mod scratch;

pub use decision::{HeldEnd, decide, decide_from, decide_to};
pub use scratch::Scratch;
pub use verdict_model::Verdict;
