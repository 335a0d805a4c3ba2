//! Paths whose modules an automaton accepts, the lifted grammar that answers them, and the laws of both.
#![tactic(auto)]

mod examples;
mod laws;

pub use examples::{looping_words_are_worked, words_are_worked};
pub use laws::{
    accepted_law, lifted_grammar_law, lifted_label_law, lifted_path_law, lifted_run_law,
    lifted_view_law, word_answer_law, word_law, word_verdict_law,
};
