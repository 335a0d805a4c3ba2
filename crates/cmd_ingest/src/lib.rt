//! `ingest`: the label file of a run, written line by line.
#![tactic(auto)]

mod command;
mod family;
mod ingest;
mod label_lines;

pub use family::Family;
