// The ways of an end that is held.
ghost use Rattle.std.specs.Prelude.{◌≡◌, ◌+◌, ◌*◌, ◌<◌, ◌≤◌, ◌↔◌, ℕ, IsTrue, length, IfOk};
ghost use Rattle.bool_mat.specs.Matrix.{has};
ghost use Rattle.wf_model.specs.View.{View};
ghost use Rattle.label_model.specs.Labels.{Label};
ghost use Rattle.wf_recur.specs.Cycles.{round_at};
ghost use Rattle.decode_model.specs.Counts.{most_products};
ghost use Rattle.decode_model.specs.Legs.{leg_down, way_down, way_up};
ghost use Rattle.decode_model.specs.Rows.{Along};
ghost use Rattle.wf_vlabel.specs.Seen.{IsLabelOfView, matrices_of};
ghost use Rattle.wf_decode.specs.Ends.{IsEndOn};
ghost use Rattle.wf_decode.specs.HeldLegs.{leg_of, legs_of};
ghost use Rattle.wf_decode.specs.HeldWays.{AreColumnsDown, AreRowsUp, AreWaysOf, IsColumnBefore, LeadsInto};
ghost use Rattle.wf_decode.specs.OpenLegs.{OpensLeg};
ghost use Rattle.wf_decode.specs.Products.{IsWay};

use crate::decision::ends::{End, ModulePort};
use crate::decision::legs_left::{full_row, meet};
use crate::leg::Leg;
use crate::rows::{down_leg, up_leg};
use bool_mat::{Steps, column, single};
use std::alloc::{AllocError, Global};
use std::sync::ledger::Ledger;
use wf_spec::Side;
use wf_vlabel::ViewLabel;

/// The rows of the way up from an input of a module: behind each of the legs that lead to the module, and before the first. Fails only for want of memory.
///
/// Cost: the row products of the way.
fn rows_up<L: Ledger>(
    alloc: Global,
    vl: &ViewLabel<'_>,
    legs: &[Leg],
    from: ModulePort,
    steps: &mut Steps<L>,
) -> Result<Vec<u64>, AllocError>
    requires { (u : View) × (k : ℕ) × IsLabelOfView vl.now u × IsWay vl.now u k legs.now from.module.0 }
    ensures rows { IfOk result (λ rows. AreRowsUp vl.now legs.now from.module.0 from.port.0 rows.items) }
    ensures cost { steps.new ≤ steps.old + length (way_up (matrices_of vl.now) (legs_of vl.now legs.now)) }
{
    let mut rows = vec![in alloc; full_row(vl, from); legs.len() + 1]?;
    for i in (0..legs.len()).rev() {
        rows[i] = up_leg(vl, legs[i], rows[i + 1], steps);
    }
    Ok(rows)
}

/// The input of this number, if a leg leads from it into a column; no input otherwise.
fn input_before<L: Ledger>(
    vl: &ViewLabel<'_>,
    leg: Leg,
    input: u32,
    column: u64,
    steps: &mut Steps<L>,
) -> u64
    requires open { OpensLeg vl.now leg }
    requires input { input < 64 }
    ensures leads { (i : ℕ) → IsTrue (has result i) ↔ ((i ≡ input) × LeadsInto (leg_down (matrices_of vl.now) (leg_of vl.now leg)) column input) }
    ensures within { (j : ℕ) → Along (leg_down (matrices_of vl.now) (leg_of vl.now leg)) input j → j < 64 }
    ensures cost { steps.new ≡ steps.old + length (leg_down (matrices_of vl.now) (leg_of vl.now leg)) }
{
    let one = single(input);
    let below = down_leg(vl, leg, one, steps);
    if meet(below, column) { one } else { 0 }
}

/// The inputs from which a leg leads into a column.
///
/// Cost: the row products of the leg for each of 64 inputs.
fn column_before<L: Ledger>(vl: &ViewLabel<'_>, leg: Leg, column: u64, steps: &mut Steps<L>) -> u64
    requires { OpensLeg vl.now leg }
    ensures column { IsColumnBefore (leg_down (matrices_of vl.now) (leg_of vl.now leg)) column 64 result }
    ensures cost { steps.new ≡ steps.old + 64 * length (leg_down (matrices_of vl.now) (leg_of vl.now leg)) }
{
    let mut before = 0u64;
    for i in 0..64 {
        before |= input_before(vl, leg, i, column, steps);
    }
    before
}

/// The columns of the way down to an output of a module: before each of the legs that lead to the module, and behind the last. Fails only for want of memory.
///
/// Cost: the row products of the way for each of 64 inputs.
fn columns_down<L: Ledger>(
    alloc: Global,
    vl: &ViewLabel<'_>,
    legs: &[Leg],
    to: ModulePort,
    steps: &mut Steps<L>,
) -> Result<Vec<u64>, AllocError>
    requires way { (u : View) × (k : ℕ) × IsLabelOfView vl.now u × IsWay vl.now u k legs.now to.module.0 }
    requires output { to.port.0 < 64 }
    ensures columns { IfOk result (λ columns. AreColumnsDown vl.now legs.now to.module.0 to.port.0 columns.items) }
    ensures cost { steps.new ≤ steps.old + 64 * length (way_down (matrices_of vl.now) (legs_of vl.now legs.now)) }
{
    let last = column(vl.full(to.module).rows, to.port.0 as u32);
    let mut columns = vec![in alloc; last; legs.len() + 1]?;
    for i in (0..legs.len()).rev() {
        columns[i] = column_before(vl, legs[i], columns[i + 1], steps);
    }
    Ok(columns)
}

/// The ways of an end on a side. Fails only for want of memory.
///
/// Cost: the row products of one decision for each of 64 inputs, at most.
pub(crate) fn ways_of<L: Ledger>(
    alloc: Global,
    vl: &ViewLabel<'_>,
    side: Side,
    end: End,
    legs: &[Leg],
    steps: &mut Steps<L>,
) -> Result<Vec<u64>, AllocError>
    requires { (u : View) × (x : Label) × IsLabelOfView vl.now u × IsEndOn side vl.now u x end legs.now }
    ensures ways { IfOk result (λ ways. AreWaysOf side vl.now end legs.now ways.items) }
    ensures cost { (l : ℕ) → ((k : ℕ) → length (round_at vl.now.cycles k) ≤ l) → steps.new ≤ steps.old + 64 * most_products vl.now.grammar l }
{
    // The view label is one of a view.
    let _label = vl.cycles();
    let End::At { legs: n, at } = end else {
        return Ok(Vec::new(alloc));
    };
    match side {
        Side::Input => rows_up(alloc, vl, &legs[..n], at, steps),
        Side::Output => columns_down(alloc, vl, &legs[..n], at, steps),
    }
}
