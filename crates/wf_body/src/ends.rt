// Matrices that begin or end at the head of a body.
ghost use Rattle.std.specs.Prelude.{◌≡◌, ◌<◌, length, IfOk, OnErr};
ghost use Rattle.wf_model.specs.Grammar.{body_of};
ghost use Rattle.wf_model.specs.Meaning.{pairs_of};
ghost use Rattle.bool_mat.specs.Matrix.{Adds, matrix_at};
ghost use Rattle.wf_body.specs.Matrices.{HaveRows, step_of, IsMatrixJoined, IsMatrixInto, IsMatrixOutOf};

use crate::leads::{push_to_exits, push_to_inputs};
use bool_mat::{MatNo, MatPool};
use std::alloc::{AllocError, Global};
use wf_spec::{Deps, Grammar, ProdNo, Step};

/// Pushes the matrix of the pairs that a body induces: it joins input `i` of the head to output `o` of the head exactly if a path in the body does.
///
/// The matrices of the pool keep their numbers. Fails only for want of memory, and the pool is then as before. Cost: one pass through the body.
pub fn induced(
    alloc: Global,
    g: &Grammar,
    p: ProdNo,
    deps: &Deps,
    pool: &mut MatPool,
) -> Result<MatNo, AllocError>
    requires production { p.0 < length g.now.core.productions }
    requires rows { HaveRows g.now.core p.0 deps.now }
    ensures added { IfOk result (λ m. Adds pool.old pool.new m.0 1) }
    ensures induced { IfOk result (λ m. IsMatrixJoined g.now.core (pairs_of deps.now) p.0 (matrix_at pool.new m.0)) }
    ensures err { OnErr result (pool.new ≡ pool.old) }
{
    push_to_exits(alloc, g, p, None, deps, pool)
}

/// Pushes the matrix from the head to a position: it joins input `i` of the head to input `j` of the position exactly if a path in the body does.
///
/// The matrices of the pool keep their numbers. Fails only for want of memory, and the pool is then as before. Cost: one pass through the body.
pub fn into_position(
    alloc: Global,
    g: &Grammar,
    s: Step,
    deps: &Deps,
    pool: &mut MatPool,
) -> Result<MatNo, AllocError>
    requires production { s.production.0 < length g.now.core.productions }
    requires position { s.position.0 < length (body_of g.now.core s.production.0) }
    requires rows { HaveRows g.now.core s.production.0 deps.now }
    ensures added { IfOk result (λ m. Adds pool.old pool.new m.0 1) }
    ensures into { IfOk result (λ m. IsMatrixInto g.now.core (pairs_of deps.now) (step_of s) (matrix_at pool.new m.0)) }
    ensures err { OnErr result (pool.new ≡ pool.old) }
{
    push_to_inputs(alloc, g, s.production, None, s.position, deps, pool)
}

/// Pushes the matrix from a position to the head: it joins output `j` of the position to output `o` of the head exactly if a path in the body does.
///
/// The matrices of the pool keep their numbers. Fails only for want of memory, and the pool is then as before. Cost: one pass through the body.
pub fn out_of_position(
    alloc: Global,
    g: &Grammar,
    s: Step,
    deps: &Deps,
    pool: &mut MatPool,
) -> Result<MatNo, AllocError>
    requires production { s.production.0 < length g.now.core.productions }
    requires position { s.position.0 < length (body_of g.now.core s.production.0) }
    requires rows { HaveRows g.now.core s.production.0 deps.now }
    ensures added { IfOk result (λ m. Adds pool.old pool.new m.0 1) }
    ensures out_of { IfOk result (λ m. IsMatrixOutOf g.now.core (pairs_of deps.now) (step_of s) (matrix_at pool.new m.0)) }
    ensures err { OnErr result (pool.new ≡ pool.old) }
{
    push_to_exits(alloc, g, s.production, Some(s.position), deps, pool)
}
