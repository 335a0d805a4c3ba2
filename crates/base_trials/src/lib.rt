//! Tests of the crates below the grammars, by their public calls: bits, matrices, names, files, lines and held reports.
#![tactic(auto)]

#[cfg(test)]
mod bit_tests;
#[cfg(test)]
mod file_tests;
#[cfg(test)]
mod inbox_tests;
#[cfg(test)]
mod line_tests;
#[cfg(test)]
mod matrix_tests;
#[cfg(test)]
mod name_tests;
