//! Labels of a grammar, read over a package of it without that grammar, and written as labels of the package's grammar.
//!
//! A package shows a part of a grammar. A label whose way leads on into what it does not show comes to an atomic module and is outside.
//! Any other tells an item of the package's grammar, by place.
#![tactic(auto)]

mod chain;
mod cycle;
mod fault;
mod inside;
mod label;
mod laws;
mod number;
mod part;
mod place;
mod translating;

pub use fault::PackLabelFault;
pub use inside::label_in;
pub use laws::some_translation_law;
pub use translating::{Packed, translate};
