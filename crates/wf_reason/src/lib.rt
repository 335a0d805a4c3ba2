//! What is said of a chain of items that was handed in: whether its lines are one, and otherwise which is the first wrong one.
#![tactic(auto)]

mod checked;
mod checking;
mod examples;
mod fault;
mod laws;
mod line;
mod naming;
mod stage;
mod standing;
mod turn;

pub use checked::Checked;
pub use examples::lines_are_worked;
pub use fault::{CHAIN, LineWrong};
pub use laws::{chain_file_law, one_text_law, yes_law};
pub use stage::{chain_stage, verify_chain};
pub use turn::Turn;
