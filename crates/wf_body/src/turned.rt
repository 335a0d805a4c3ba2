// Words of sources as matrices.
ghost use Rattle.std.specs.Prelude.{◌≡◌, ◌<◌, ◌≤◌, length, IfOk, OnErr};
ghost use Rattle.bool_mat.specs.Matrix.{Adds, has, matrix_at};
ghost use Rattle.wf_body.specs.Matrices.{IsMatrixTurned};

use bool_mat::{MatNo, MatPool, column};
use std::alloc::AllocError;

/// Pushes the matrix of words of sources: it joins source `i` to word `j` exactly if the word has bit `i`.
///
/// Fails only for want of memory, and the pool is then as before. Cost: one look at each word for each source.
pub fn push_turned(pool: &mut MatPool, words: &[u64], sources: usize) -> Result<MatNo, AllocError>
    requires words { length words.now ≤ 64 }
    requires sources { sources ≤ 64 }
    ensures added { IfOk result (λ m. Adds pool.old pool.new m.0 1) }
    ensures turned { IfOk result (λ m. IsMatrixTurned words.now sources (matrix_at pool.new m.0)) }
    ensures err { OnErr result (pool.new ≡ pool.old) }
{
    let columns = words.len() as u8;
    let mut rows = [0u64; 64];
    for i in 0..sources {
        rows[i] = column(words, i as u32);
    }
    pool.push(&rows[..sources], columns)
}
