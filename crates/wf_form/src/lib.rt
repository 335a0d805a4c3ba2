//! Grammars from the parts that a specification names: resolved, tested and put together.
#![tactic(auto)]

mod assemble;
mod checks;
mod fault;
mod fault_text;
mod forming;
mod law;
mod links;
mod versions;
mod wiring;

pub use fault::{FormFault, Spot};
pub use forming::{build, build_with_key};
pub use law::forming_law;
