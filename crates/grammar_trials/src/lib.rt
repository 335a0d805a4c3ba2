//! Tests of what the crates that read, test and view grammars offer beside the commands, by their public calls. What a command shows is tried by the rows of checks/rows.
#![tactic(auto)]

#[cfg(test)]
mod event_tests;
#[cfg(test)]
mod generated_tests;
#[cfg(test)]
mod rank_tests;
#[cfg(test)]
mod text_tests;
#[cfg(test)]
mod view_tests;
