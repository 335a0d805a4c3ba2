// Row products of a decision.
ghost use Rattle.std.specs.Prelude.{◌<◌, ℕ};
ghost use Rattle.wf_recur.specs.Cycles.{step_of};
ghost use Rattle.decode_model.specs.Legs.{way_up};
ghost use Rattle.wf_vlabel.specs.Seen.{matrices_of};
ghost use Rattle.wf_decode.specs.HeldLegs.{legs_of};
ghost use Rattle.wf_decode.specs.LegsLeft.{HaveColumns, HaveRows, LeadOn, legs_left};
ghost use Rattle.wf_decode.specs.Products.{HaveWaysApart, IsBit, IsBitAcross, IsSingle, full_row_of, matrices_below};

use crate::decision::legs_left::{LegsLeft, comes_to, row_up};
use bool_mat::{Steps, has_column, row_times, single};
use std::sync::ledger::Ledger;
use wf_spec::{PortNo, Step};
use wf_vlabel::ViewLabel;

/// Up from an input of a module to a position, across the body to another position, and down to an output of a module.
pub(crate) fn across<L: Ledger>(
    vl: &ViewLabel<'_>,
    first: Step,
    from: LegsLeft<'_>,
    second: Step,
    to: LegsLeft<'_>,
    steps: &mut Steps<L>,
) -> bool
    requires ways { HaveWaysApart vl.now (step_of first) (step_of second) (legs_left from) (legs_left to) from.at.module.0 to.at.module.0 }
    requires rows { HaveRows vl.now from }
    requires columns { HaveColumns vl.now to }
    ensures { IsBitAcross vl.now (step_of first) (legs_left from.entry) (step_of second) (legs_left to.entry) from.entry.at.module.0 from.entry.at.port.0
        steps.old steps.new to.entry.at.port.0 result }
{
    let above = row_up(vl, from, steps);
    let beside = row_times(above, vl.between(first, second.position), steps);
    comes_to(vl, beside, to, steps)
}

/// Down from an input of an instance to an output of a module.
pub(crate) fn below<L: Ledger>(
    vl: &ViewLabel<'_>,
    input: PortNo,
    to: LegsLeft<'_>,
    steps: &mut Steps<L>,
) -> bool
    requires way { LeadOn vl.now to }
    requires input { input.0 < 64 }
    requires columns { HaveColumns vl.now to }
    ensures { (first : ℕ) × IsSingle input.0 first ×
        IsBit (matrices_below vl.now (legs_left to.entry) to.entry.at.module.0) first steps.old steps.new to.entry.at.port.0 result }
{
    comes_to(vl, single(input.0 as u32), to, steps)
}

/// Up from an input of a module to an output of an instance.
pub(crate) fn above<L: Ledger>(
    vl: &ViewLabel<'_>,
    from: LegsLeft<'_>,
    output: PortNo,
    steps: &mut Steps<L>,
) -> bool
    requires way { LeadOn vl.now from }
    requires output { output.0 < 64 }
    requires rows { HaveRows vl.now from }
    ensures { IsBit (way_up (matrices_of vl.now) (legs_of vl.now (legs_left from.entry))) (full_row_of vl.now from.entry.at.module.0 from.entry.at.port.0)
        steps.old steps.new output.0 result }
{
    has_column(row_up(vl, from, steps), output.0 as u32)
}
