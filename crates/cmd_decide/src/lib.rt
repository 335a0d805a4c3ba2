//! `decide`: what two labels tell under a safe view.
#![tactic(auto)]

mod command;
mod decide;
mod family;
mod words;

pub use family::Family;
