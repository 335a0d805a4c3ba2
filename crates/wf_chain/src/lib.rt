//! Chains of items of a run under a safe view: whether steps are one, and the first of the shortest from one item to another.
//!
//! A `ViewedRun` is a run of a grammar with a safe view of it. It finds items and instances by name (`find_item`, `find_instance`) and tells which items the view shows (`shows`).
//!
//! - `check_chain` tells whether steps from an item are a chain, and `check_step` whether one step goes on, and if not, what is wrong. A step may be judged in two halves, before its item is known: `consumes`, whether its instance consumes the item before it, and `leads_to`, whether the input leads to the next item.
//! - `explain` gives the first of the shortest chains from one item to another.
//! - `text_of` writes a chain down.
#![tactic(auto)]

mod chain;
mod check;
mod ends;
mod explain;
mod item_graph;
mod items;
mod pairs;
mod text;
mod viewed_run;

pub use chain::{Chain, ChainStep, WrongStep};
pub use viewed_run::ViewedRun;
