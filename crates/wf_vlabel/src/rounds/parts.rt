// The matrices of the first steps and of the last steps of a cycle.
ghost use Rattle.std.specs.Prelude.{◌≡◌, ℕ, ◌+◌, ◌-◌, ◌*◌, ◌<◌, length, IfOk};
ghost use Rattle.bool_mat.specs.Matrix.{Adds, matrix_at};
ghost use Rattle.wf_model.specs.Grammar.{Grammar as GrammarSeen, Assignment};
ghost use Rattle.label_model.specs.Continuing.{after};
ghost use Rattle.wf_recur.specs.Cycles.{round_at};
ghost use Rattle.wf_vlabel.specs.ChainMatrices.{AreParts};
ghost use Rattle.wf_vlabel.specs.CycleMatrices.{HaveMatrices, HasFirsts, HasLasts, HasParts, KeepsParts, IsRoundOf};

use crate::groups::Groups;
use crate::rounds::steps::push_step;
use crate::rounds::way::{Way, joined};
use bool_mat::{MatNo, MatPool};
use std::alloc::{AllocError, Global};
use wf_recur::{CycleNo, Linear};

/// Pushes the matrices of the first 1, 2 and so on steps of a cycle. Before each of them but the first stands that of its last step.
///
/// Cost: a product for each place but the first.
fn push_firsts(
    g: Linear<'_>,
    bodies: &Groups,
    c: CycleNo,
    way: Way,
    pool: &mut MatPool,
) -> Result<MatNo, AllocError>
    requires cycle { c.0 < length g.cycles.now.rounds }
    requires steps { HaveMatrices g.grammar.now.core g.cycles.now bodies.now c.0 }
    ensures added { IfOk result (λ n. Adds pool.old pool.new n.0 (2 * length (round_at g.entry.cycles.now c.0) - 1)) }
    ensures firsts { IfOk result (λ n. HasFirsts way g.entry.grammar.now.core g.entry.cycles.now bodies.now c.0 pool.new n.0) }
{
    let length = g.cycles.length(c);
    let first = push_step(g, bodies, c, 0, way, pool)?;
    let mut last = first;
    for place in 1..length {
        let step = push_step(g, bodies, c, place, way, pool)?;
        last = joined(pool, way, last, step)?;
    }
    Ok(first)
}

/// Pushes the matrices of the last 1, 2 and so on steps of a cycle. Before each of them but the first stands that of its first step.
///
/// Cost: a product for each place but the last.
fn push_lasts(
    g: Linear<'_>,
    bodies: &Groups,
    c: CycleNo,
    way: Way,
    pool: &mut MatPool,
) -> Result<MatNo, AllocError>
    requires cycle { c.0 < length g.cycles.now.rounds }
    requires steps { HaveMatrices g.grammar.now.core g.cycles.now bodies.now c.0 }
    ensures added { IfOk result (λ n. Adds pool.old pool.new n.0 (2 * length (round_at g.entry.cycles.now c.0) - 1)) }
    ensures lasts { IfOk result (λ n. HasLasts way g.entry.grammar.now.core g.entry.cycles.now bodies.now c.0 pool.new n.0) }
{
    let mut place = g.cycles.length(c) - 1;
    let first = push_step(g, bodies, c, place, way, pool)?;
    let mut last = first;
    while place > 0 {
        place -= 1;
        let step = push_step(g, bodies, c, place, way, pool)?;
        last = joined(pool, way, step, last)?;
    }
    Ok(first)
}

/// The matrices of the first steps and then those of the last steps of a cycle, one way. Fails only for want of memory.
pub(crate) fn parts_of(
    alloc: Global,
    g: Linear<'_>,
    bodies: &Groups,
    c: CycleNo,
    way: Way,
) -> Result<MatPool, AllocError>
    requires cycle { c.0 < length g.cycles.now.rounds }
    requires steps { HaveMatrices g.grammar.now.core g.cycles.now bodies.now c.0 }
    ensures { IfOk result (λ pool. HasParts way g.entry.grammar.now.core g.entry.cycles.now bodies.now c.0 pool) }
{
    let mut pool = MatPool::new(alloc);
    push_firsts(g, bodies, c, way, &mut pool)?;
    push_lasts(g, bodies, c, way, &mut pool)?;
    Ok(pool)
}

/// Pushes the matrix of one round from a place of a cycle of so many modules: of its last steps from there on, and then of its first. That from place 0 the pool has.
///
/// Cost: one product at most.
pub(crate) fn push_round(
    pool: &mut MatPool,
    way: Way,
    size: u16,
    place: u16,
) -> Result<MatNo, AllocError>
    requires place { place < size }
    requires parts { (g : GrammarSeen) × (d : Assignment) × (first : ℕ) × (after g size first ≡ first) × AreParts way g d first size pool.old }
    ensures kept { IfOk result (λ n. KeepsParts way size pool.old pool.new) }
    ensures in_range { IfOk result (λ n. n.0 < length pool.new) }
    ensures round { IfOk result (λ n. IsRoundOf way size place pool.old (matrix_at pool.new n.0)) }
{
    let lasts = 2 * size as usize - 1;
    let last = MatNo(lasts + 2 * (size - place - 1) as usize);
    if place == 0 {
        return Ok(last);
    }
    let first = MatNo(2 * (place as usize - 1));
    joined(pool, way, last, first)
}
