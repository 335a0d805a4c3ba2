//! Generated runs: the events of a run of a workflow grammar, made from a number of expansions and a seed, the same on every machine.
#![tactic(auto)]

mod choice;
mod generator;
mod law;
mod next;
mod pending;
mod text;
mod turn;

pub use generator::Gen;
pub use law::{generated_length_law, generated_run_law, runs_are_worked};
