//! Files that are taken line by line: what each line makes of a state, what is put, and how the lines end.
#![tactic(auto)]

mod due;
mod fault;
mod lines;
mod next;
mod taker;

pub use due::Due;
pub use fault::{Halt, LinesFault};
pub use lines::take_lines;
pub use taker::Taker;
