// The matrices of rounds of cycles.
ghost use Rattle.std.specs.Prelude.{◌≡◌, ◌<◌, ◌↔◌, IsTrue, length, IfOk, None};
ghost use Rattle.wf_model.specs.Meaning.{pairs_of};
ghost use Rattle.wf_model.specs.View.{expands};
ghost use Rattle.wf_recur.specs.Cycles.{round_at, least_of};
ghost use Rattle.wf_safe.specs.Full.{AreFullRows};
ghost use Rattle.wf_vlabel.specs.RoundSteps.{IsOpenCycle};
ghost use Rattle.wf_vlabel.specs.Tables.{AreBodyGroups, AreSquareGroups};
ghost use Rattle.wf_vlabel.specs.CycleMatrices.{AreCutsOf};

mod parts;
mod squares;
mod steps;
pub(crate) mod stills;
pub(crate) mod way;

use crate::groups::Groups;
use crate::rounds::squares::square_cycle;
use crate::sight::Sight;
use bool_mat::{MatNo, MatPool};
use std::alloc::{AllocError, Global};
use wf_recur::CycleNo;
use wf_safe::FullDeps;
use wf_spec::ModNo;

/// Whether a cycle is seen and expanded whole.
fn is_open(s: Sight<'_, '_>, cuts: &[Option<u32>], c: CycleNo) -> bool
    requires count { length cuts.now ≡ length s.linear.grammar.now.core.modules }
    requires cuts { AreCutsOf s.linear.grammar.now.core s.view.now.core cuts.now }
    requires cycle { c.0 < length s.linear.cycles.now.rounds }
    ensures { IsTrue result ↔ IsOpenCycle s.entry.linear.grammar.now.core s.entry.view.now.core (least_of (round_at s.entry.linear.cycles.now c.0)) }
{
    let _modules = s.linear.grammar.modules();
    let first = s.linear.cycles.at(c, 0);
    s.view.seen(first) && cuts[first.0 as usize].is_none()
}

/// Makes room for the matrices of the cycles that are seen and expanded whole: 50 for each module, half of them with its inputs as rows and half with its outputs.
fn reserve_room(
    s: Sight<'_, '_>,
    cuts: &[Option<u32>],
    pool: &mut MatPool,
) -> Result<(), AllocError>
    requires count { length cuts.now ≡ length s.linear.grammar.now.core.modules }
    ensures { pool.new ≡ pool.old }
{
    let mut matrices = 0usize;
    let mut rows = 0usize;
    for k in 0..s.linear.grammar.modules().len() {
        let m = ModNo(k as u16);
        if s.linear.cycles.on(m).is_some() && s.view.seen(m) && cuts[k].is_none() {
            let ports = &s.linear.grammar.modules()[k];
            let sides = ports.inputs().len().saturating_add(ports.outputs().len());
            matrices = matrices.saturating_add(50);
            rows = rows.saturating_add(sides.saturating_mul(25));
        }
    }
    pool.reserve(matrices, rows)
}

/// For each module of a cycle that is seen and expanded whole, the matrices of 1, 2, 4 and so on rounds of the cycle down from the module, 24 of them, and then as many of rounds up to it. Fails only for want of memory.
///
/// Room for all of them is made at once. The rounds of one cycle are products of the matrices of its first places and those of its last places. Cost: for each module three products in each direction, and 23 squares.
pub(crate) fn square_groups(
    alloc: Global,
    s: Sight<'_, '_>,
    full: &FullDeps,
    cuts: &[Option<u32>],
    bodies: &Groups,
) -> Result<Groups, AllocError>
    requires rows { AreFullRows s.linear.grammar.now.core s.view.now.core full.now }
    requires count { length cuts.now ≡ length s.linear.grammar.now.core.modules }
    requires cuts { AreCutsOf s.linear.grammar.now.core s.view.now.core cuts.now }
    requires bodies { AreBodyGroups s.linear.grammar.now.core (expands s.view.now.core) (pairs_of full.now) bodies.now }
    ensures { IfOk result (λ t. AreSquareGroups s.entry.linear.grammar.now.core (expands s.entry.view.now.core) (pairs_of full.now) t) }
{
    let mut squares = MatPool::new(alloc);
    reserve_room(s, cuts, &mut squares)?;
    let mut first = vec![in alloc; None; s.linear.grammar.modules().len()]?;
    for c in 0..s.linear.cycles.count() {
        let c = CycleNo(c);
        if is_open(s, cuts, c) {
            square_cycle(alloc, s.linear, bodies, c, &mut squares, &mut first)?;
        }
    }
    Ok(Groups::of_pool(squares, first))
}
