//! `package`, `consult` and `compare`: a view that answers without the specification, and whether a coarser view ever denies what a finer one affirms.
#![tactic(auto)]

mod command;
mod compare;
mod consult;
mod family;
mod package;
mod package_input;

pub use family::Family;
