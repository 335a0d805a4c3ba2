//! Graphs of numbered vertices, what is reached in them, and the first of the shortest routes.
#![tactic(auto)]

mod graph;
mod making;
mod search;
mod shortest;

pub use graph::{Graph, RowGraph};
pub use making::{add_edge, no_edges};
pub use search::{Search, reached};
pub use shortest::first_shortest;
