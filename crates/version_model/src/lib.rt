//! Earlier versions of a grammar, and the laws of them: what a version tells, the grammar tells too.
#![tactic(auto)]

mod examples;
mod laws;

pub use examples::versions_are_worked;
pub use laws::{
    given_pairs_law, standing_induced_law, standing_law, standing_route_law, version_cycles_law,
    version_depends_law, version_entries_law, version_formed_law, version_label_law,
    version_reach_law, version_reports_law, version_route_law, version_run_law, version_safe_law,
    version_step_law, version_verdict_law, version_view_law, version_visible_law,
};
