//! The lifted grammar, in which each port stands once for each state of an automaton, and the lifted view, whose pairs lead from state to state.
//!
//! A path in the links of the lifted view from a port in one state to a port in another is a path before lifting whose word leads the automaton from the one state to the other. `lift` makes the grammar and `lift_view` the view.
#![tactic(auto)]

mod ends;
mod flags;
mod grammar;
mod law;
mod modules;
mod names;
mod numbers;
mod pairs;
mod rules;
mod table;
mod view;
mod witness_text;

pub use grammar::lift;
pub use law::{lifted_tables_law, perceived_alike_law};
pub use view::lift_view;
pub use witness_text::add_witness;
