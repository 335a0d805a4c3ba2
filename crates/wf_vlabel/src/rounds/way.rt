// The two ways of a chain.
ghost use Rattle.std.specs.Prelude.{◌≡◌, ◌<◌, length, IfOk};
ghost use Rattle.bool_mat.specs.Matrix.{Adds, matrix_at};
ghost use Rattle.wf_vlabel.specs.ChainMatrices.{FitAlong, IsProductAlong};

use bool_mat::{MatNo, MatPool, product};
use std::alloc::AllocError;

/// Which way a chain is gone: down from a module, from its inputs on, or up to it, to its outputs.
#[derive(Clone, Copy)]
pub enum Way {
    Down,
    Up,
}

/// Pushes the matrix of steps and of later ones, one after another.
///
/// Cost: one product.
pub(crate) fn joined(
    pool: &mut MatPool,
    way: Way,
    first: MatNo,
    later: MatNo,
) -> Result<MatNo, AllocError>
    requires first { first.0 < length pool.old }
    requires later { later.0 < length pool.old }
    requires fit { FitAlong way (matrix_at pool.old first.0) (matrix_at pool.old later.0) }
    ensures added { IfOk result (λ n. Adds pool.old pool.new n.0 1) }
    ensures product { IfOk result (λ n. IsProductAlong way (matrix_at pool.old first.0) (matrix_at pool.old later.0) (matrix_at pool.new n.0)) }
{
    match way {
        Way::Down => product(pool, first, later),
        Way::Up => product(pool, later, first),
    }
}
