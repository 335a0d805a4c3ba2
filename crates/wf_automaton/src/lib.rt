//! Automata over the modules of a grammar, read from JSON: which word of modules they accept.
#![tactic(auto)]

mod automaton;
mod build;
mod checks;
mod fault;
mod fault_text;
mod law;
mod marks;
mod moves;
mod parts;
mod reading;

pub use automaton::Automaton;
pub use fault::{AutoFault, AutoMember, AutoSpot};
pub use law::{auto_outcome_law, said_moves_law};
