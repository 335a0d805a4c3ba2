//! The intake of reports: they come in any order and more than once, and their events are applied to a run as they come to be ready.
#![tactic(auto)]

mod fault;
mod grows;
mod intake;
mod reported;
mod round;
mod standing;

pub use fault::IntakeFault;
pub use grows::Grows;
pub use intake::{begin_report, none_held};
pub use reported::{Reported, ReportedBy};
pub use round::apply_next;
