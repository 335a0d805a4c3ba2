//! The labels of the items that events make, one event after another.
#![tactic(auto)]

mod edges;
mod entry;
mod group;
mod keeper;
mod labelled_run;
mod labeller;
mod labels;
mod measure;
mod ports;
mod room;

pub use entry::{Entry, Records};
pub use labelled_run::LabelledRun;
pub use labeller::Labeller;
pub use labels::Labels;
