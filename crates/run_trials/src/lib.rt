//! Tests of the program over files in memory, by its one public call: pieces, rooms and breaks that no file on a disk has.
#![tactic(auto)]

#[cfg(test)]
mod break_tests;
#[cfg(test)]
mod called;
#[cfg(test)]
mod plain_tests;
#[cfg(test)]
mod room_tests;
