//! Safe views: the pairs that every expansion of a module joins, or a witness of two expansions that disagree.
#![tactic(auto)]

mod check;
mod fault;
mod full;
mod law;
mod safe_view;
mod safety;
mod witness;
mod witness_text;

pub use check::check_witness;
pub use fault::SafeFault;
pub use full::FullDeps;
pub use law::{one_witness_law, witness_law};
pub use safe_view::SafeView;
pub use safety::full_deps;
pub use witness::{Choice, Witness};
