//! What each family of commands promises, with its laws, and how a stage of a command reads a file, refuses it and ends the program.
#![tactic(auto)]

mod family;
mod halt;
mod kind;
mod put;
mod read;

pub use family::{Commands, Either};
pub use halt::stop_at;
pub use kind::FileKind;
pub use put::put_text;
pub use read::read_file;
