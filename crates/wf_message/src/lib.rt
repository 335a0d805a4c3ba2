//! How the program ends: endings with their places and refusals, and the line of an ending, put piece by piece.
#![tactic(auto)]

mod ending;
mod line;
mod pieces;
mod refusal;
mod status;
mod told;

pub use ending::{Ending, Place, Stop, ending_after, refused_line, refused_whole};
pub use line::{status_of, tell};
pub use refusal::{Refusal, empty_text};
pub use status::Status;
