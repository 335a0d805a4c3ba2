//! The comparison of two views of one grammar, of which one is coarser, and the laws of it.
#![tactic(auto)]

mod compared;
mod examples;
mod laws;
mod outcomes;

pub use compared::Compared;
pub use examples::comparisons_are_worked;
pub use laws::{
    pair_law, reach_agreement_law, run_agreement_law, sees_no_more_law, verdict_agreement_law,
};
pub use outcomes::{
    coarser_law, first_route_law, one_outcome_law, run_along_law, shown_law, some_outcome_law,
};
