//! The plain provenance of a run under a view, written as lines.
#![tactic(auto)]

mod export;
mod fault;
mod gathering;
mod instance_lines;
mod item_lines;
mod link_lines;
mod ports;

pub use export::write_export;
pub use fault::ExportFault;
