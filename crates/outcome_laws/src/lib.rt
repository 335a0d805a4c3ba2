//! Laws of what the program does, across its commands. No library of the program depends on them.
//!
//! - `one_outcome_law`: words and files leave one end and one text at most.
//! - `some_outcome_law`: words and files leave an end and a text, so exactly one.
//! - `good_call_law`: where nothing is to be refused, the end is that all is done.
//! - `call`, `call_plain`: the program comes to its outcome, or wants memory.
//! - `labels_tell_law`: a query has the same answers from a run's label file as from the run, in each of its finishings.
//! - `words_tell_law`: a query by words has the same answers from a run's label file as from the run, in each of its finishings.
//! - `listed_law`: what is listed for an item over a run's label file is what the run answers yes to, in each of its finishings.
//! - `labels_answer_law`: so have lines of queries, to the byte and to the end.
//! - `ask_is_trace_law`: `ask` over the label file that `ingest` wrote writes what `trace` writes over the events.
//! - `consult_is_decide_law`: `consult` over the package that `package` wrote writes what `decide` writes under the view.
//! - `ingest_grows_law`: what `ingest` writes over events begins what it writes over more of them.
//! - `told_run_law`: a file of events whose reports are taken whole tells an accepted run, with the events that it reports.
//! - `same_lines_law`: a file with the same lines, in whatever order and repeated, reports the events of this run.
//! - `reordered_files_law`: a file that reports the events of a run, in whatever order and repeated, tells this run: `ingest` ends in Done and writes the same entries, `trace` writes the same, and so does `ask` over the label files.
//! - `reordered_answers_law`: queries have the same answers over such files, and over their label files.
//! - `same_instances_law`: the run of `trace` and that of `ingest` have the same instances.
#![tactic(auto)]

mod calls;
mod law;

pub use calls::{call, call_plain};
pub use law::{
    ask_is_trace_law, consult_is_decide_law, good_call_law, ingest_grows_law, labels_answer_law,
    labels_tell_law, listed_law, one_outcome_law, reordered_answers_law, reordered_files_law,
    same_instances_law, same_lines_law, some_outcome_law, told_run_law, words_tell_law,
};
