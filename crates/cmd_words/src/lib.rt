//! `words`: queries on items, answered from their labels by the modules that the paths between them pass, in order, and an automaton that reads these.
#![tactic(auto)]

mod answer;
mod auto_input;
mod command;
mod family;
mod labels;
mod lifted;
mod prepared;
mod words;

pub use family::Family;
