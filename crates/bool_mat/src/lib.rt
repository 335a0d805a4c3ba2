//! Boolean matrices as relations: products, transposes and powers, kept in pools, and a counted product of a row and a matrix.
#![tactic(auto)]

mod compose;
mod laws;
mod matrix;
mod pool;
mod power;
mod row;
mod steps;
mod transpose;

pub use compose::product;
pub use laws::{
    associative_law, commute_law, one_product_law, power_sum_law, row_law, same_law, transpose_law,
    twice_transposed_law,
};
pub use matrix::MatRef;
pub use pool::{MatNo, MatPool};
pub use power::power_table;
pub use row::{column, has_column, single, union};
pub use steps::{Steps, row_times};
pub use transpose::transposed;
