//! Labels of views: what a view shows of a grammar, as matrices.
#![tactic(auto)]

mod bodies;
mod cuts;
mod cycle_tables;
mod full;
mod groups;
mod rounds;
mod sight;
mod view_label;

pub use rounds::way::Way;
pub use view_label::ViewLabel;
