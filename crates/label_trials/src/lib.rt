//! Tests of what the crates that compute with bodies, safe views, labels and runs offer beside the commands, by their public calls. What a command shows is tried by the rows of checks/rows.
#![tactic(auto)]

#[cfg(test)]
mod body_tests;
#[cfg(test)]
mod caller_tests;
#[cfg(test)]
mod checker_tests;
#[cfg(test)]
mod entry_tests;
#[cfg(test)]
mod events;
#[cfg(test)]
mod label_bits_tests;
#[cfg(test)]
mod label_tests;
#[cfg(test)]
mod query_tests;
#[cfg(test)]
mod run_table_tests;
#[cfg(test)]
mod store_tests;
#[cfg(test)]
mod view_label_tests;
#[cfg(test)]
mod witness_tests;
