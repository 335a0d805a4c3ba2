//! QUERIES as a stage of a command: its lines, answered one by one by whatever answers two names.
#![tactic(auto)]

mod stage;
mod stop;

pub use stage::queries_stage;
pub use stop::queries_end;
