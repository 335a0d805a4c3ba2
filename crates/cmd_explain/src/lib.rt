//! `lineage` and `impact`: the items on which an item rests, and those that rest on it, from the labels of a run. `explain`: why one item rests on another, from the run. `verify`: whether a chain that was handed in is one.
#![tactic(auto)]

mod command;
mod explain;
mod family;
mod item;
mod listing;
mod put;
mod reason;
mod verify;

pub use family::Family;
