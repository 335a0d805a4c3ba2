// Transposes of the matrices of a pool.
ghost use Rattle.std.specs.Prelude.{◌≡◌, ◌<◌, length, IfOk, OnErr};
ghost use Rattle.bool_mat.specs.Matrix.{Adds, IsTransposed, matrix_at};

use crate::pool::{MatNo, MatPool};
use crate::row::column;
use std::alloc::AllocError;

/// Pushes the transpose of a matrix: it joins row `j` to column `i` exactly if `a` joins row `i` to column `j`.
///
/// The matrices of the pool keep their numbers. If memory is refused, the pool is as before. Time linear in the number of rows times that of columns.
pub fn transposed(pool: &mut MatPool, a: MatNo) -> Result<MatNo, AllocError>
    requires { a.0 < length pool.old }
    ensures added { IfOk result (λ m. Adds pool.old pool.new m.0 1) }
    ensures transposed { IfOk result (λ m. IsTransposed (matrix_at pool.old a.0) (matrix_at pool.new m.0)) }
    ensures err { OnErr result (pool.new ≡ pool.old) }
{
    let turned = pool.get(a);
    let count = turned.columns;
    let columns = turned.rows.len() as u8;
    let mut rows = [0u64; 64];
    for j in 0..count {
        rows[j as usize] = column(turned.rows, j as u32);
    }
    pool.push(&rows[..count as usize], columns)
}
