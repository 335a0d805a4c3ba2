//! How the dependency of two addresses is told by products of rows and matrices, and how many it takes: definitions, and laws that are contracts of functions that do nothing.
#![tactic(auto)]

mod costs;
mod examples;
mod rows;
mod ways;

pub use costs::{cost_law, count_law, left_law, numbers_law, products_law};
pub use examples::orders_are_worked;
pub use rows::{
    decided_law, down_rows_law, progress_law, rows_law, through_law, up_rows_law, ways_law,
};
pub use ways::{chain_law, chain_leg_law, crosses_law};
