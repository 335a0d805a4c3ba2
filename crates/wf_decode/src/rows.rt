// Row products along legs.
mod continuing;
mod rounds;

ghost use Rattle.std.specs.Prelude.{◌≡◌, ℕ, false};
ghost use Rattle.wf_model.specs.View.{View};
ghost use Rattle.decode_model.specs.Legs.{AreLegs, leg_down, leg_up, way_down, way_up};
ghost use Rattle.decode_model.specs.Rows.{Progress};
ghost use Rattle.wf_vlabel.specs.Seen.{IsLabelOfView, matrices_of};
ghost use Rattle.wf_decode.specs.declared.leg.Leg.TheVariants.{Chain};
ghost use Rattle.wf_decode.specs.HeldLegs.{AreHeld, leg_of, legs_of};
ghost use Rattle.wf_decode.specs.OpenLegs.{OpensLeg};

use crate::leg::Leg;
use crate::rows::continuing::{continuing_down, continuing_up};
use crate::rows::rounds::whole_rounds;
use bool_mat::{Steps, row_times};
use std::sync::ledger::Ledger;
use wf_label::turns;
use wf_recur::CycleNo;
use wf_vlabel::{ViewLabel, Way};

/// The row times the matrices on the way down the legs: of a chain of a cycle that the view shows whole those of whole rounds first, by squares, and then those of the rest, step by step.
///
/// Each product is counted. Cost: one product for a step, and at most 23 and the length of the cycle for a chain.
pub(crate) fn down<L: Ledger>(
    vl: &ViewLabel<'_>,
    legs: &[Leg],
    row: u64,
    steps: &mut Steps<L>,
) -> u64
    requires { (u : View) × (m : ℕ) × IsLabelOfView vl.now u × AreHeld vl.now m false legs.now × AreLegs vl.now.grammar u m (legs_of vl.now legs.now) }
    ensures { Progress (way_down (matrices_of vl.now) (legs_of vl.now legs.now)) row result steps.old steps.new }
{
    let mut row = row;
    for leg in legs {
        row = down_leg(vl, *leg, row, steps);
    }
    row
}

/// The row times the matrices on the way down one leg.
pub(crate) fn down_leg<L: Ledger>(
    vl: &ViewLabel<'_>,
    leg: Leg,
    row: u64,
    steps: &mut Steps<L>,
) -> u64
    requires { OpensLeg vl.now leg }
    ensures { Progress (leg_down (matrices_of vl.now) (leg_of vl.now leg)) row result steps.old steps.new }
{
    match leg {
        Leg::Into { step } => row_times(row, vl.into_position(step), steps),
        Leg::Chain {
            cycle,
            place,
            count,
        } => down_chain(vl, cycle, place, count, row, steps),
    }
}

// The row times the matrices on the way down a chain.
fn down_chain<L: Ledger>(
    vl: &ViewLabel<'_>,
    cycle: CycleNo,
    place: u16,
    count: u32,
    row: u64,
    steps: &mut Steps<L>,
) -> u64
    requires { OpensLeg vl.now (Chain cycle place count) }
    ensures { Progress (leg_down (matrices_of vl.now) (leg_of vl.now (Chain cycle place count))) row result steps.old steps.new }
{
    let cycles = vl.cycles();
    if vl.cut(cycle, place).is_some() {
        return continuing_down(vl, cycle, place, count, row, steps);
    }
    let length = cycles.length(cycle) as u64;
    let turned = turns(count as u64, length);
    let row = whole_rounds(vl, Way::Down, cycle, place, turned.0 as u32, row, steps);
    continuing_down(vl, cycle, place, turned.1 as u32, row, steps)
}

/// The row times the matrices on the way up the legs, the last leg first: of a chain of a cycle that the view shows whole those of the rest first, its last step first, and then those of whole rounds, by squares.
///
/// Each product is counted. Cost: one product for a step, and at most 23 and the length of the cycle for a chain.
pub(crate) fn up<L: Ledger>(vl: &ViewLabel<'_>, legs: &[Leg], row: u64, steps: &mut Steps<L>) -> u64
    requires { (u : View) × (m : ℕ) × IsLabelOfView vl.now u × AreHeld vl.now m false legs.now × AreLegs vl.now.grammar u m (legs_of vl.now legs.now) }
    ensures { Progress (way_up (matrices_of vl.now) (legs_of vl.now legs.now)) row result steps.old steps.new }
{
    let mut row = row;
    for i in (0..legs.len()).rev() {
        row = up_leg(vl, legs[i], row, steps);
    }
    row
}

/// The row times the matrices on the way up one leg.
pub(crate) fn up_leg<L: Ledger>(vl: &ViewLabel<'_>, leg: Leg, row: u64, steps: &mut Steps<L>) -> u64
    requires { OpensLeg vl.now leg }
    ensures { Progress (leg_up (matrices_of vl.now) (leg_of vl.now leg)) row result steps.old steps.new }
{
    match leg {
        Leg::Into { step } => row_times(row, vl.out_of_position(step), steps),
        Leg::Chain {
            cycle,
            place,
            count,
        } => up_chain(vl, cycle, place, count, row, steps),
    }
}

// The row times the matrices on the way up a chain.
fn up_chain<L: Ledger>(
    vl: &ViewLabel<'_>,
    cycle: CycleNo,
    place: u16,
    count: u32,
    row: u64,
    steps: &mut Steps<L>,
) -> u64
    requires { OpensLeg vl.now (Chain cycle place count) }
    ensures { Progress (leg_up (matrices_of vl.now) (leg_of vl.now (Chain cycle place count))) row result steps.old steps.new }
{
    let cycles = vl.cycles();
    if vl.cut(cycle, place).is_some() {
        return continuing_up(vl, cycle, place, count, row, steps);
    }
    let length = cycles.length(cycle) as u64;
    let turned = turns(count as u64, length);
    let row = continuing_up(vl, cycle, place, turned.1 as u32, row, steps);
    whole_rounds(vl, Way::Up, cycle, place, turned.0 as u32, row, steps)
}
