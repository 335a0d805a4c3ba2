// The matrices of many rounds of a cycle.
ghost use Rattle.std.specs.Prelude.{◌≡◌, ◌<◌, length, IfOk, OnOk};
ghost use Rattle.bool_mat.specs.Matrix.{Adds, matrix_at};
ghost use Rattle.wf_vlabel.specs.declared.rounds.way.Way.TheVariants.{Down, Up};
ghost use Rattle.wf_vlabel.specs.RoundSteps.{numbers_in};
ghost use Rattle.wf_vlabel.specs.CycleMatrices.{HaveMatrices, KeepsParts, HaveBothParts, AreSquaresOf, KeepsRounds, HaveRounds};

use crate::groups::Groups;
use crate::rounds::parts::{parts_of, push_round};
use crate::rounds::way::Way;
use bool_mat::{MatNo, MatPool, power_table};
use std::alloc::{AllocError, Global};
use wf_recur::{CycleNo, Linear};

/// Pushes a matrix of another pool.
fn push_copy(from: &MatPool, m: MatNo, to: &mut MatPool) -> Result<MatNo, AllocError>
    requires { m.0 < length from.now }
    ensures added { IfOk result (λ n. Adds to.old to.new n.0 1) }
    ensures same { IfOk result (λ n. matrix_at to.new n.0 ≡ matrix_at from.now m.0) }
{
    let m = from.get(m);
    to.push(m.rows, m.columns)
}

/// Pushes the matrices of one round down from a place of a cycle and of one round up to it, and then those of 1, 2, 4 and so on rounds down, 24 of them, and as many up. It gives the number of the first of these.
///
/// Cost: two products at most, and 46 squares.
fn push_squares(
    down: &mut MatPool,
    up: &mut MatPool,
    size: u16,
    place: u16,
    squares: &mut MatPool,
) -> Result<MatNo, AllocError>
    requires place { place < size }
    requires parts { HaveBothParts size down.old up.old }
    ensures down { IfOk result (λ n. KeepsParts Down size down.old down.new) }
    ensures up { IfOk result (λ n. KeepsParts Up size up.old up.new) }
    ensures added { IfOk result (λ n. Adds squares.old squares.new (length squares.old) 50) }
    ensures squares { IfOk result (λ n. AreSquaresOf size place down.old up.old squares.new n.0) }
{
    let round = push_round(down, Way::Down, size, place)?;
    let into = push_copy(down, round, squares)?;
    let turned = push_round(up, Way::Up, size, place)?;
    let out = push_copy(up, turned, squares)?;
    let first = power_table(squares, into, 24)?;
    power_table(squares, out, 24)?;
    Ok(first)
}

/// Pushes the matrices of many rounds for each module of a cycle, and tells their numbers. What other modules have they keep.
///
/// Cost: for each module six products and 46 squares.
pub(crate) fn square_cycle(
    alloc: Global,
    g: Linear<'_>,
    bodies: &Groups,
    c: CycleNo,
    squares: &mut MatPool,
    first: &mut [Option<MatNo>],
) -> Result<(), AllocError>
    requires cycle { c.0 < length g.cycles.now.rounds }
    requires steps { HaveMatrices g.grammar.now.core g.cycles.now bodies.now c.0 }
    requires count { length first.old ≡ length g.grammar.now.core.modules }
    ensures count { length first.new ≡ length first.old }
    ensures kept { OnOk result (KeepsRounds g.entry.grammar.now.core g.entry.cycles.now bodies.now c.0 squares.old (numbers_in first.old) squares.new (numbers_in first.new)) }
    ensures told { OnOk result (HaveRounds g.entry.grammar.now.core g.entry.cycles.now bodies.now c.0 squares.new (numbers_in first.new)) }
{
    let _modules = g.grammar.modules();
    let size = g.cycles.length(c);
    let mut down = parts_of(alloc, g, bodies, c, Way::Down)?;
    let mut up = parts_of(alloc, g, bodies, c, Way::Up)?;
    for place in 0..size {
        let n = push_squares(&mut down, &mut up, size, place, squares)?;
        first[g.cycles.at(c, place).0 as usize] = Some(n);
    }
    Ok(())
}
