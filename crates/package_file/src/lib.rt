//! Packages, read from their bytes: a grammar of what a view shows, with its loops, which answers without the grammar of which it was made.
//!
//! `read_package` is the test of bytes from a stranger. A `Package` keeps what it found: the grammar is accepted, its loops are good, and its default view is safe.
#![tactic(auto)]

mod by_default;
mod entries;
mod fault;
mod fault_text;
mod form;
mod outcome_law;
mod packed;
mod parts;
mod reading;

pub use fault::PackFault;
pub use outcome_law::package_or_fault_law;
pub use packed::Package;
pub use parts::{LoopPart, PackageParts};
pub use reading::{read_package, read_package_with_key};
