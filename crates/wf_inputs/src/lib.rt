//! The files that commands read: SPEC, VIEW, EVENTS and LABELS, from bytes to values, or refused.
#![tactic(auto)]

mod event_stop;
mod events;
mod faults;
mod kinds;
mod labels;
mod opening;
mod reports;
mod specification;
mod view;
mod viewing;

pub use event_stop::{EventStop, events_stop};
pub use events::{INSTANCES, events_stage};
pub use faults::named;
pub use kinds::{COARSE, EVENTS, LABELS, QUERIES, SPEC, VIEW};
pub use labels::store_of;
pub use opening::{OverSpec, over_spec};
pub use reports::Reporting;
pub use specification::spec_stage;
pub use view::{view_file_stage, view_stage};
pub use viewing::{UnderView, under_view};
