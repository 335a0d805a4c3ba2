//! A view written as a package: one line of text that answers without the specification.
#![tactic(auto)]

mod examples;
mod grammar;
mod laws;
mod loops;
mod modules;
mod names;
mod pairs;
mod places;
mod productions;
mod shown;
mod text;
mod writing;

pub use examples::texts_are_worked;
pub use laws::same_text_law;
pub use writing::write_package;
