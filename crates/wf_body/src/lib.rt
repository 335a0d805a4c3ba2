//! Paths in one body of a workflow grammar, as Boolean matrices.
#![tactic(auto)]

mod crossing;
mod ends;
mod law;
mod leading;
mod leads;
mod order;
mod pass;
mod standing;
mod turned;
mod word;

pub use crossing::{between, between_all};
pub use ends::{induced, into_position, out_of_position};
pub use law::body_law;
