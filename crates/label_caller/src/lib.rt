//! A caller of the crates of labels: it opens a label file once, and decides pairs of items under a view. docs/LIBRARY.md tells how it is put together.
#![tactic(auto)]

mod decider;

pub use decider::Decider;
