//! Two views of one grammar side by side: whether the coarser one denies what the finer one affirms, and where.
//!
//! `compare` takes two safe views of one grammar, of which the second expands no module that the first does not, and tells the first pair that the second denies, with a run in which it does; else the first that it adds; else that the two agree. `add_text` writes down what is told, and `CompareFault` why two views are not compared.
#![tactic(auto)]

mod coarser;
mod comparing;
mod fault;
mod fault_text;
mod pairs;
mod route;
mod rows;
mod run;
mod steps;
mod text;

pub use compare_model::Compared;
pub use comparing::compare;
pub use fault::CompareFault;
pub use text::add_text;
