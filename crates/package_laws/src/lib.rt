//! A package that is written is read back: laws of the text that `wf_package` writes and `package_file` reads. No library of the program depends on them.
//!
//! - `read_back_law`: the text of the package of a safe view is read as this package, and has no fault.
//! - `consult_written_law`: two labels have by the package that is read the verdict that they have under the view.
//! - `read_back`: a package that is written and read is that of the view, or memory was refused.
#![tactic(auto)]

mod law;
mod round_trip;

pub use law::{consult_written_law, read_back_law};
pub use round_trip::read_back;
