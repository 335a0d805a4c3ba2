// The matrices of bodies.
ghost use Rattle.std.specs.Prelude.{◌≡◌, ◌<◌, ◌↔◌, ℕ, IsTrue, length, option_map, IfOk, OnOk};
ghost use Rattle.bool_mat.specs.Matrix.{Adds};
ghost use Rattle.wf_model.specs.Grammar.{body_of, head_of};
ghost use Rattle.wf_model.specs.Meaning.{pairs_of};
ghost use Rattle.wf_model.specs.View.{expands};
ghost use Rattle.wf_body.specs.Matrices.{HaveRows, step_of};
ghost use Rattle.wf_safe.specs.Full.{AreFullRows};
ghost use Rattle.wf_safe.specs.Inducing.{IsSeenExpanded};
ghost use Rattle.wf_vlabel.specs.Growing.{Grows, IsBodyGroup};
ghost use Rattle.wf_vlabel.specs.Tables.{AreBodyGroups, AreStepGroups, IsStepGroup, of_body, of_position};

use crate::groups::Groups;
use crate::sight::Sight;
use bool_mat::{MatNo, MatPool};
use std::alloc::{AllocError, Global};
use wf_body::{between_all, into_position, out_of_position};
use wf_safe::FullDeps;
use wf_spec::{Deps, Grammar, PosNo, ProdNo, Step};

/// Whether the view shows the body of a production: its head is seen and expanded.
fn is_shown(s: Sight<'_, '_>, p: ProdNo) -> bool
    requires production { p.0 < length s.linear.grammar.now.core.productions }
    ensures { IsTrue result ↔ IsSeenExpanded s.entry.linear.grammar.now.core s.entry.view.now.core (head_of s.entry.linear.grammar.now.core p.0) }
{
    let head = s.linear.grammar.production(p).head();
    s.view.seen(head) && s.view.expanded(head)
}

/// How many rows the matrices of a body have in all.
fn rows_of_body(g: &Grammar, p: ProdNo) -> usize
    requires { p.0 < length g.now.core.productions }
{
    let modules = g.modules();
    let production = g.production(p);
    let positions = production.positions();
    let mut outputs = 0usize;
    for k in 0..positions.len() {
        let module = positions[k].module.0 as usize;
        outputs = outputs.saturating_add(modules[module].outputs().len());
    }
    let inputs = modules[production.head().0 as usize].inputs().len();
    let of_inputs = positions.len().saturating_mul(inputs);
    of_inputs.saturating_add(outputs.saturating_mul(positions.len() + 1))
}

/// Makes room for the matrices of the bodies that the view shows.
fn reserve_room(s: Sight<'_, '_>, pool: &mut MatPool) -> Result<(), AllocError>
    ensures { pool.new ≡ pool.old }
{
    let mut matrices = 0usize;
    let mut rows = 0usize;
    for k in 0..s.linear.grammar.productions().len() {
        let p = ProdNo(k as u16);
        if is_shown(s, p) {
            let positions = s.linear.grammar.production(p).positions().len();
            matrices = matrices.saturating_add(positions.saturating_mul(positions + 2));
            rows = rows.saturating_add(rows_of_body(s.linear.grammar, p));
        }
    }
    pool.reserve(matrices, rows)
}

/// Pushes the matrices of a position: its way in, its way out, and one to each position of its body.
///
/// Cost: three passes through the body.
fn push_position(
    alloc: Global,
    g: &Grammar,
    s: Step,
    deps: &Deps,
    pool: &mut MatPool,
) -> Result<MatNo, AllocError>
    requires production { s.production.0 < length g.now.core.productions }
    requires position { s.position.0 < length (body_of g.now.core s.production.0) }
    requires rows { HaveRows g.now.core s.production.0 deps.now }
    ensures added { IfOk result (λ n. Adds pool.old pool.new n.0 (of_position g.now.core s.production.0)) }
    ensures position { IfOk result (λ n. IsStepGroup g.now.core (pairs_of deps.now) (step_of s) pool.new n.0) }
{
    let first = into_position(alloc, g, s, deps, pool)?;
    out_of_position(alloc, g, s, deps, pool)?;
    between_all(alloc, g, s, deps, pool)?;
    Ok(first)
}

/// Pushes the matrices of the positions of a body, in order.
///
/// Cost: three passes through the body for each position.
fn push_body(
    alloc: Global,
    g: &Grammar,
    p: ProdNo,
    deps: &Deps,
    pool: &mut MatPool,
) -> Result<MatNo, AllocError>
    requires production { p.0 < length g.now.core.productions }
    requires rows { HaveRows g.now.core p.0 deps.now }
    ensures added { IfOk result (λ n. Adds pool.old pool.new n.0 (of_body g.now.core p.0)) }
    ensures body { IfOk result (λ n. AreStepGroups g.now.core (pairs_of deps.now) p.0 (length (body_of g.now.core p.0)) pool.new n.0) }
{
    let first = MatNo(pool.len());
    for k in 0..g.production(p).positions().len() {
        let s = Step {
            production: p,
            position: PosNo(k as u8),
        };
        push_position(alloc, g, s, deps, pool)?;
    }
    Ok(first)
}

/// Pushes the matrices of a body, if the view shows it.
fn push_shown(
    alloc: Global,
    s: Sight<'_, '_>,
    p: ProdNo,
    full: &FullDeps,
    pool: &mut MatPool,
) -> Result<Option<MatNo>, AllocError>
    requires production { p.0 < length s.linear.grammar.now.core.productions }
    requires rows { AreFullRows s.linear.grammar.now.core s.view.now.core full.now }
    ensures grown { OnOk result (Grows pool.old pool.new) }
    ensures group { IfOk result (λ n. IsBodyGroup s.entry.linear.grammar.now.core s.entry.view.now.core (pairs_of full.now) p.0 pool.new (option_map (λ k. k.0) n)) }
{
    if !is_shown(s, p) {
        return Ok(None);
    }
    let first = push_body(alloc, s.linear.grammar, p, full.deps(), pool)?;
    Ok(Some(first))
}

/// The matrices of the body of each production whose head is seen and expanded. Fails only for want of memory.
///
/// Room for all of them is made at once. Cost: for each position of each such body three passes through it.
pub(crate) fn body_groups(
    alloc: Global,
    s: Sight<'_, '_>,
    full: &FullDeps,
) -> Result<Groups, AllocError>
    requires rows { AreFullRows s.linear.grammar.now.core s.view.now.core full.now }
    ensures { IfOk result (λ t. AreBodyGroups s.entry.linear.grammar.now.core (expands s.entry.view.now.core) (pairs_of full.now) t) }
{
    let mut pool = MatPool::new(alloc);
    reserve_room(s, &mut pool)?;
    let mut first = Vec::new(alloc);
    for k in 0..s.linear.grammar.productions().len() {
        let number = push_shown(alloc, s, ProdNo(k as u16), full, &mut pool)?;
        first.push(number)?;
    }
    Ok(Groups::of_pool(pool, first))
}
