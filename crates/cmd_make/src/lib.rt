//! `export`, `gen` and `drill`: the graph of a run written out, and runs made from a number of expansions and a seed.
#![tactic(auto)]

mod command;
mod drill;
mod export;
mod family;
mod generate;
mod held;
mod labelling;
mod law;
mod number;
mod pairs;
mod summary;
mod verdicts;

pub use family::Family;
pub use law::pairs_counted_law;
