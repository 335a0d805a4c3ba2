//! Runs of workflow grammars as compressed parse trees: each instance keeps the bits with which the labels begin that it may come to make, in an arena.
//!
//! Chains of steps along one cycle of the grammar are kept as one number, so what an instance keeps does not grow with the run.
//! The idea is that of Bao, Davidson and Milo, "Labeling Workflow Views with Fine-Grained Dependencies", VLDB 2012, section 4 (compressed parse trees).
#![tactic(auto)]

mod chain;
mod child;
mod grow;
mod node;
mod prefix;
mod root;
mod run;

pub use node::{Children, NodeNo};
pub use prefix::PrefixRef;
pub use run::Run;
