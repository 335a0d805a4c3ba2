// Powers of a matrix.
ghost use Rattle.std.specs.Prelude.{◌≡◌, ◌<◌, length, take, IfOk, OnErr};
ghost use Rattle.bool_mat.specs.Matrix.{Adds, ArePowers, IsMatrix, matrix_at};

use crate::compose::product;
use crate::pool::{MatNo, MatPool};
use std::alloc::AllocError;

/// Pushes a square matrix raised to the powers 1, 2, 4 and so on, `count` of them and at least one, and gives the number of the first. They are numbered one after another, so the matrix raised to `2 ^ k` has the `k`th number after the first.
///
/// The matrices of the pool keep their numbers. If memory is refused, the pool is as before. All room is reserved at first. The cost is that of one push and of `count - 1` products.
pub fn power_table(pool: &mut MatPool, a: MatNo, count: u8) -> Result<MatNo, AllocError>
    requires a { a.0 < length pool.old }
    requires square { (matrix_at pool.old a.0).columns ≡ length (matrix_at pool.old a.0).rows }
    requires some { 0 < count }
    ensures added { IfOk result (λ m. Adds pool.old pool.new m.0 count) }
    ensures powers { IfOk result (λ m. ArePowers (matrix_at pool.old a.0) pool.new m.0 count) }
    ensures err { OnErr result (pool.new ≡ pool.old) }
{
    let square = pool.get(a);
    let rows = count as usize * square.rows.len();
    pool.reserve(count as usize, rows)?;
    let before = pool.len();
    match push_powers(pool, a, count) {
        Ok(first) => Ok(first),
        Err(e) => {
            pool.truncate(before);
            Err(e)
        }
    }
}

// The same, but if memory is refused, the powers made so far stay.
fn push_powers(pool: &mut MatPool, a: MatNo, count: u8) -> Result<MatNo, AllocError>
    requires a { a.0 < length pool.old }
    requires square { (matrix_at pool.old a.0).columns ≡ length (matrix_at pool.old a.0).rows }
    requires some { 0 < count }
    ensures added { IfOk result (λ m. Adds pool.old pool.new m.0 count) }
    ensures powers { IfOk result (λ m. ArePowers (matrix_at pool.old a.0) pool.new m.0 count) }
    ensures err { OnErr result (take (length pool.old) pool.new ≡ pool.old) }
{
    let first = copy(pool, a)?;
    let mut last = first;
    for _done in 1..count {
        last = product(pool, last, last)?;
    }
    Ok(first)
}

// Pushes a matrix of the pool once more.
fn copy(pool: &mut MatPool, a: MatNo) -> Result<MatNo, AllocError>
    requires { a.0 < length pool.old }
    ensures added { IfOk result (λ m. Adds pool.old pool.new m.0 1) }
    ensures same { IfOk result (λ m. matrix_at pool.new m.0 ≡ matrix_at pool.old a.0) }
    ensures is_matrix { IsMatrix (matrix_at pool.old a.0) }
    ensures err { OnErr result (pool.new ≡ pool.old) }
{
    let m = pool.get(a);
    let columns = m.columns;
    let count = m.rows.len();
    let mut rows = [0u64; 64];
    rows[..count].copy_from_slice(m.rows);
    pool.push(&rows[..count], columns)
}
