//! The program, over any shelf of files and any sinks: it hands its words to the family of commands that takes them.
#![tactic(auto)]

mod families;
mod program;

pub use families::Families;
pub use program::run;
pub use wf_message::Status;
