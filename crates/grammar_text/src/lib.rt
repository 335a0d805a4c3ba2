//! What texts about a grammar are made of, appended to a text piece by piece: the names of its parts, and numbers in decimal.
#![tactic(auto)]

mod adding;
mod names;

pub use adding::{add_numbered, add_numbers, add_step, add_two};
pub use names::{input_name, module_name, output_name, position_name};
