//! Proper grammars: each composite module is reached and has an expansion that ends, and none becomes itself by unit productions.
#![tactic(auto)]

mod check;
mod choices;
mod composite;
mod fault;
mod fault_text;
mod ranking;
mod ranks;
mod reach;
mod unit;

pub use check::proper;
pub use fault::CheckFault;
pub use ranking::Proper;
