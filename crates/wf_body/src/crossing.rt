// Matrices between positions of a body.
ghost use Rattle.std.specs.Prelude.{◌≡◌, ◌<◌, length, take, IfOk, OnErr};
ghost use Rattle.wf_model.specs.Grammar.{body_of};
ghost use Rattle.wf_model.specs.Meaning.{pairs_of};
ghost use Rattle.bool_mat.specs.Matrix.{Adds, matrix_at};
ghost use Rattle.wf_body.specs.Matrices.{HaveRows, step_of, AreMatricesBetween, IsMatrixBetween};

use crate::leads::{push_to_all_inputs, push_to_inputs};
use bool_mat::{MatNo, MatPool};
use std::alloc::{AllocError, Global};
use wf_spec::{Deps, Grammar, PosNo, Step};

/// Pushes the matrix from a position to another of the same body: it joins output `j` of the first to input `i` of the second exactly if a path in the body does. From a position to itself no pair is joined, since a body has no cycle.
///
/// The matrices of the pool keep their numbers. Fails only for want of memory, and the pool is then as before. Cost: one pass through the body.
pub fn between(
    alloc: Global,
    g: &Grammar,
    s: Step,
    to: PosNo,
    deps: &Deps,
    pool: &mut MatPool,
) -> Result<MatNo, AllocError>
    requires production { s.production.0 < length g.now.core.productions }
    requires position { s.position.0 < length (body_of g.now.core s.production.0) }
    requires to { to.0 < length (body_of g.now.core s.production.0) }
    requires rows { HaveRows g.now.core s.production.0 deps.now }
    ensures added { IfOk result (λ m. Adds pool.old pool.new m.0 1) }
    ensures between { IfOk result (λ m. IsMatrixBetween g.now.core (pairs_of deps.now) (step_of s) to.0 (matrix_at pool.new m.0)) }
    ensures err { OnErr result (pool.new ≡ pool.old) }
{
    push_to_inputs(alloc, g, s.production, Some(s.position), to, deps, pool)
}

/// Pushes the matrices from a position to each position of the same body, as `between` does, and gives the number of the first: the matrix to position `to` has the `to`th number after it.
///
/// The matrices of the pool keep their numbers. Fails only for want of memory; the pool may then have matrices after those that it had. Cost: one pass through the body.
pub fn between_all(
    alloc: Global,
    g: &Grammar,
    s: Step,
    deps: &Deps,
    pool: &mut MatPool,
) -> Result<MatNo, AllocError>
    requires production { s.production.0 < length g.now.core.productions }
    requires position { s.position.0 < length (body_of g.now.core s.production.0) }
    requires rows { HaveRows g.now.core s.production.0 deps.now }
    ensures added { IfOk result (λ m. Adds pool.old pool.new m.0 (length (body_of g.now.core s.production.0))) }
    ensures between { IfOk result (λ m. AreMatricesBetween g.now.core (pairs_of deps.now) (step_of s) pool.new m.0) }
    ensures err { OnErr result (take (length pool.old) pool.new ≡ pool.old) }
{
    push_to_all_inputs(alloc, g, s.production, Some(s.position), deps, pool)
}
