//! What a view shows of a grammar, written as a package that answers without the specification, and the laws of it.
#![tactic(auto)]

mod examples;
mod laws;

pub use examples::packages_are_worked;
pub use laws::{
    consult_law, inside_label_law, one_translation_law, package_law, package_loops_law,
    seen_lists_law, shown_law, translation_law,
};
