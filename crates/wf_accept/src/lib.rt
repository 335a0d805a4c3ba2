//! Accepted grammars: proper, strictly linear, and each earlier version keeps its cycles; with the ranks of the modules and the cycles.
#![tactic(auto)]

mod accepted;
mod accepting;
mod fault;
mod fault_text;
mod versions;

pub use accepted::Accepted;
pub use accepting::accept;
pub use fault::{AcceptFault, Unaccepted};
