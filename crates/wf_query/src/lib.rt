//! Query lines, answered one by one by whatever answers two names, and their answers from the entries of a label file.
#![tactic(auto)]

mod ahead;
mod answerer;
mod answering;
mod answers;
mod batching;
mod deciding;
mod labels;
mod law;
mod query;

pub use ahead::look_ahead;
pub use answerer::Answerer;
pub use answers::{Answer, line_of};
pub use batching::{BatchFault, answer_lines};
pub use deciding::answer;
pub use labels::batch;
pub use law::query_law;
pub use query::{LineWrong, Query, read_query};
