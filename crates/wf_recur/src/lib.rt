//! Strictly linear grammars: each module has at most one step that leads back to it, and these steps form cycles.
#![tactic(auto)]

mod fault;
mod fault_text;
mod linear_grammar;
mod reach;
mod rounds;
mod search;
mod steps;
mod table;

pub use fault::RecurFault;
pub use linear_grammar::Linear;
pub use search::cycles;
pub use steps::target;
pub use table::{CycleNo, Cycles, OnCycle};
