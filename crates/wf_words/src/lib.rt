//! Whether a path joins the items of two labels whose modules an automaton accepts, in order: from the labels, and the labels of a view and of the lifted view, alone.
#![tactic(auto)]

mod answer;
mod last_part;
mod lifting;
mod scratch;
mod some_state;
mod verdict;
mod word_view;

pub use answer::answer_by_words;
pub use lifting::lift_label;
pub use scratch::WordScratch;
pub use verdict::word_verdict;
pub use word_view::WordView;
