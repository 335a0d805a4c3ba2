//! `check` and `view`: what a specification and a view say, written as text.
#![tactic(auto)]

mod check;
mod check_text;
mod command;
mod family;
mod view;
mod view_text;

pub use family::Family;
