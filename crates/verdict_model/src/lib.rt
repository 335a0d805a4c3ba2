//! What two labels tell under a view, and the laws of it.
#![tactic(auto)]

mod examples;
mod laws;
mod verdict;

pub use examples::verdicts_are_worked;
pub use laws::{
    answer_law, both_law, either_law, kept_law, no_clash_law, one_answer_law, one_verdict_law,
    telling_law,
};
pub use verdict::Verdict;
