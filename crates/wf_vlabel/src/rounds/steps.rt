// The matrices of single continuing steps.
ghost use Rattle.std.specs.Prelude.{◌≡◌, ◌<◌, ◌+◌, length, Some, IfOk};
ghost use Rattle.bool_mat.specs.Matrix.{Adds, matrix_at};
ghost use Rattle.wf_model.specs.Grammar.{body_of};
ghost use Rattle.label_model.specs.Continuing.{continuing, after};
ghost use Rattle.wf_recur.specs.Cycles.{round_at, least_of, step_of};
ghost use Rattle.wf_vlabel.specs.ChainMatrices.{place_along};
ghost use Rattle.wf_vlabel.specs.Tables.{begins};
ghost use Rattle.wf_vlabel.specs.CycleMatrices.{HaveMatrices, HasStepFrom};

use crate::groups::Groups;
use crate::rounds::way::Way;
use bool_mat::{MatNo, MatPool};
use std::alloc::AllocError;
use wf_recur::{CycleNo, Linear};
use wf_spec::{Grammar, PosNo, ProdNo, Step};

/// The continuing step of the module at a place of a cycle.
fn step_at(g: Linear<'_>, c: CycleNo, place: u16) -> Step
    requires cycle { c.0 < length g.cycles.now.rounds }
    requires place { place < length (round_at g.cycles.now c.0) }
    ensures { continuing g.entry.grammar.now.core (after g.entry.grammar.now.core place (least_of (round_at g.entry.cycles.now c.0))) ≡ Some (step_of result) }
{
    let _modules = g.grammar.modules();
    match g.cycles.on(g.cycles.at(c, place)) {
        Some(on) => on.step,
        None => Step {
            production: ProdNo(0),
            position: PosNo(0),
        },
    }
}

/// Where the matrix of a step stands among those of its body.
fn place_of(g: &Grammar, s: Step, way: Way) -> usize
    requires production { s.production.0 < length g.now.core.productions }
    requires position { s.position.0 < length (body_of g.now.core s.production.0) }
    ensures { result ≡ begins g.now.core (step_of s) + place_along way }
{
    let positions = g.production(s.production).positions().len();
    prove!(positions <= 64);
    let begins = s.position.0 as usize * (positions + 2);
    match way {
        Way::Down => begins,
        Way::Up => begins + 1,
    }
}

/// Pushes the matrix of the continuing step of the module at a place of a cycle.
pub(crate) fn push_step(
    g: Linear<'_>,
    bodies: &Groups,
    c: CycleNo,
    place: u16,
    way: Way,
    pool: &mut MatPool,
) -> Result<MatNo, AllocError>
    requires cycle { c.0 < length g.cycles.now.rounds }
    requires place { place < length (round_at g.cycles.now c.0) }
    requires steps { HaveMatrices g.grammar.now.core g.cycles.now bodies.now c.0 }
    ensures added { IfOk result (λ n. Adds pool.old pool.new n.0 1) }
    ensures step { IfOk result (λ n. HasStepFrom way g.entry.grammar.now.core g.entry.cycles.now bodies.now c.0 place (matrix_at pool.new n.0)) }
{
    let s = step_at(g, c, place);
    let at = place_of(g.grammar, s, way);
    let m = bodies.matrix(s.production.0 as usize, at);
    pool.push(m.rows, m.columns)
}
