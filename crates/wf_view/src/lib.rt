//! Views of workflow grammars: the modules that a view expands, those that it lets a reader see, and the pairs that it shows.
#![tactic(auto)]

mod assemble;
mod build;
mod checks;
mod fault;
mod fault_text;
mod fit;
mod grammar_view;
mod law;
mod marks;
mod of_rows;
mod seen;
mod shown;
mod view;

pub use fault::{ViewFault, ViewSpot};
pub use fit::rows_fit;
pub use grammar_view::GrammarView;
pub use law::described_law;
pub use shown::shown_table;
pub use view::View;
