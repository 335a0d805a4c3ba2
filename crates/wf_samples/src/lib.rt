//! Worked grammars and views for the crates of tests: their texts, and what the program reads from a text.
#![tactic(auto)]

mod reading;
mod texts;

pub use reading::{grammar, safe, sample, view};
pub use texts::{FORKING, LINE, LOOP, PAIR, TWISTING};
