// Row products of continuing steps, one by one.
ghost use Rattle.std.specs.Prelude.{◌≡◌, ◌+◌, ◌%◌, ◌<◌, length, map};
ghost use Rattle.wf_model.specs.Linear.{Continues};
ghost use Rattle.decode_model.specs.Legs.{each_up, leg_steps};
ghost use Rattle.decode_model.specs.Rows.{Progress};
ghost use Rattle.wf_recur.specs.Cycles.{round_at, step_of};
ghost use Rattle.wf_vlabel.specs.Seen.{matrices_of};
ghost use Rattle.wf_decode.specs.HeldLegs.{chain_from, module_on, step_on};
ghost use Rattle.wf_decode.specs.OpenLegs.{OpensRoute};

use bool_mat::{Steps, row_times};
use std::sync::ledger::Ledger;
use wf_label::turns;
use wf_recur::CycleNo;
use wf_spec::{PosNo, ProdNo, Step};
use wf_vlabel::ViewLabel;

/// The continuing step of the module that stands so many places further on a cycle.
///
/// Constant time.
fn continuing_step(vl: &ViewLabel<'_>, cycle: CycleNo, place: u16, further: u32) -> Step
    requires cycle { cycle.0 < length vl.now.cycles.rounds }
    requires place { place < length (round_at vl.now.cycles cycle.0) }
    ensures told { step_of result ≡ step_on vl.now.cycles (module_on vl.now.cycles cycle.0 ((place + further) % length (round_at vl.now.cycles cycle.0))) }
    ensures continues { Continues vl.now.grammar (module_on vl.now.cycles cycle.0
        ((place + further) % length (round_at vl.now.cycles cycle.0))) (step_of result) }
{
    let cycles = vl.cycles();
    let length = cycles.length(cycle) as u64;
    let turned = turns(place as u64 + further as u64, length);
    let at = turned.1;
    prove!(at < 65536);
    match cycles.on(cycles.at(cycle, at as u16)) {
        Some(on) => on.step,
        // Not met: each module of a cycle stands in the table.
        None => Step {
            production: ProdNo(0),
            position: PosNo(0),
        },
    }
}

/// So many continuing steps down from a place of a cycle, the first step first.
///
/// Cost: one product for each step.
pub(crate) fn continuing_down<L: Ledger>(
    vl: &ViewLabel<'_>,
    cycle: CycleNo,
    place: u16,
    count: u32,
    row: u64,
    steps: &mut Steps<L>,
) -> u64
    requires cycle { cycle.0 < length vl.now.cycles.rounds }
    requires place { place < length (round_at vl.now.cycles cycle.0) }
    requires open { OpensRoute vl.now (module_on vl.now.cycles cycle.0 place) (leg_steps (chain_from vl.now.cycles cycle.0 place count)) }
    ensures { Progress (map (matrices_of vl.now).into (leg_steps (chain_from vl.now.cycles cycle.0 place count))) row result steps.old steps.new }
{
    let mut row = row;
    for i in 0..count {
        row = row_times(
            row,
            vl.into_position(continuing_step(vl, cycle, place, i)),
            steps,
        );
    }
    row
}

/// So many continuing steps up to a place of a cycle, the last step first.
///
/// Cost: one product for each step.
pub(crate) fn continuing_up<L: Ledger>(
    vl: &ViewLabel<'_>,
    cycle: CycleNo,
    place: u16,
    count: u32,
    row: u64,
    steps: &mut Steps<L>,
) -> u64
    requires cycle { cycle.0 < length vl.now.cycles.rounds }
    requires place { place < length (round_at vl.now.cycles cycle.0) }
    requires open { OpensRoute vl.now (module_on vl.now.cycles cycle.0 place) (leg_steps (chain_from vl.now.cycles cycle.0 place count)) }
    ensures { Progress (each_up (matrices_of vl.now) (leg_steps (chain_from vl.now.cycles cycle.0 place count))) row result steps.old steps.new }
{
    let mut row = row;
    for i in (0..count).rev() {
        row = row_times(
            row,
            vl.out_of_position(continuing_step(vl, cycle, place, i)),
            steps,
        );
    }
    row
}
