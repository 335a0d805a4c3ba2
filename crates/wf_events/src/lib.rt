//! Reading events from lines of JSON, and writing them.
#![tactic(auto)]

mod event;
mod fault;
mod law;
mod number;
mod scan;
mod text;
mod write;

pub use event::read_event;
pub use fault::EventFault;
pub use law::written_law;
pub use write::{append_part, write_event};
