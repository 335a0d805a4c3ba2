// Products of the matrices of a pool.
ghost use Rattle.std.specs.Prelude.{◌≡◌, ◌<◌, length, IfOk, OnErr};
ghost use Rattle.bool_mat.specs.Matrix.{Adds, IsProduct, matrix_at};

use crate::pool::{MatNo, MatPool};
use crate::row::union;
use std::alloc::AllocError;

/// Pushes the product of two matrices, which is the composition of their relations: it joins row `i` to column `k` exactly if some `j` is a column to which `a` joins row `i` and a row that `b` joins to column `k`. `a` has as many columns as `b` has rows.
///
/// The matrices of the pool keep their numbers. If memory is refused, the pool is as before. Time linear in the number of rows and of pairs of `a`, at most 64 times 64 turns.
pub fn product(pool: &mut MatPool, a: MatNo, b: MatNo) -> Result<MatNo, AllocError>
    requires a { a.0 < length pool.old }
    requires b { b.0 < length pool.old }
    requires fits { (matrix_at pool.old a.0).columns ≡ length (matrix_at pool.old b.0).rows }
    ensures added { IfOk result (λ m. Adds pool.old pool.new m.0 1) }
    ensures product { IfOk result (λ m. IsProduct (matrix_at pool.old a.0) (matrix_at pool.old b.0) (matrix_at pool.new m.0)) }
    ensures err { OnErr result (pool.new ≡ pool.old) }
{
    let left = pool.get(a);
    let right = pool.get(b);
    let columns = right.columns;
    let count = left.rows.len();
    let mut rows = [0u64; 64];
    for i in 0..count {
        rows[i] = union(left.rows[i], right.rows, columns);
    }
    pool.push(&rows[..count], columns)
}
