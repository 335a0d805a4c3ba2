//! The verdict on two labels under a safe view, by one call that makes what it needs and counts nothing.
#![tactic(auto)]

mod verdict;

pub use verdict::verdict_of;
