//! Whether an earlier version of a strictly linear grammar keeps its cycles.
#![tactic(auto)]

mod change;
mod fault;
mod fault_text;
mod keeping;
mod rounds;

pub use fault::VersionFault;
pub use keeping::same_cycles;
