//! Labels as words of hexadecimal digits, and the words of a verdict on two labels.
#![tactic(auto)]

mod digits;
mod told;

pub use digits::{HexWord, is_hex};
pub use told::verdict_line;
