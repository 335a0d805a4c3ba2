//! `trace` and `ask`: queries on items, answered from the events of a run, or from the labels of its items.
#![tactic(auto)]

mod answer;
mod ask;
mod command;
mod family;
mod prepared;
mod trace;

pub use family::Family;
