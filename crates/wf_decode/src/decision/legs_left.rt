// Row products along the legs that are left of an address.
ghost use Rattle.std.specs.Prelude.{◌≡◌, ◌∷◌, ◌<◌, ◌↔◌, ℕ, IsTrue, []};
ghost use Rattle.decode_model.specs.Legs.{way_up};
ghost use Rattle.wf_vlabel.specs.Seen.{Sees, matrices_of};
ghost use Rattle.wf_decode.specs.HeldLegs.{legs_of};
ghost use Rattle.wf_decode.specs.HeldWays.{Meet};
ghost use Rattle.wf_decode.specs.LegsLeft.{HaveColumns, HaveRows, LeadOn, legs_left};
ghost use Rattle.wf_decode.specs.Products.{IsBit, IsRowAfter, full_row_of, matrices_below};

use crate::decision::ends::ModulePort;
use crate::leg::Leg;
use crate::rows::{down, down_leg, up, up_leg};
use bool_mat::{Steps, has_column, row_times};
use std::sync::ledger::Ledger;
use wf_vlabel::ViewLabel;

/// The legs of an address of which those from a number on are left behind where two addresses part, the port of the module to which they lead, and their ways: none where the label is not held.
#[derive(Clone, Copy)]
pub(crate) struct LegsLeft<'a> {
    pub(crate) legs: &'a [Leg],
    pub(crate) from: usize,
    pub(crate) at: ModulePort,
    pub(crate) ways: &'a [u64],
}

/// Whether two rows have a column in common.
pub(crate) fn meet(a: u64, b: u64) -> bool
    ensures { IsTrue result ↔ Meet a b }
{
    a & b != 0
}

/// The outputs of a module that every expansion of it joins to an input of it.
pub(crate) fn full_row(vl: &ViewLabel<'_>, from: ModulePort) -> u64
    requires { Sees vl.now from.module.0 }
    ensures { result ≡ full_row_of vl.now from.module.0 from.port.0 }
{
    match vl.full(from.module).rows.get(from.port.0 as usize) {
        Some(row) => *row,
        None => 0,
    }
}

/// The row times the pairs of a module, and whether it then has an output.
fn ends_in<L: Ledger>(vl: &ViewLabel<'_>, row: u64, to: ModulePort, steps: &mut Steps<L>) -> bool
    requires seen { Sees vl.now to.module.0 }
    requires port { to.port.0 < 64 }
    ensures { IsBit ((matrices_of vl.now).full to.module.0 ∷ []) row steps.old steps.new to.port.0 result }
{
    let last = row_times(row, vl.full(to.module), steps);
    has_column(last, to.port.0 as u32)
}

/// Up the legs that are left, from an input of the module to which they lead. Of legs that have ways at most one is gone.
pub(crate) fn row_up<L: Ledger>(vl: &ViewLabel<'_>, left: LegsLeft<'_>, steps: &mut Steps<L>) -> u64
    requires way { LeadOn vl.now left }
    requires rows { HaveRows vl.now left }
    ensures { IsRowAfter (way_up (matrices_of vl.now) (legs_of vl.now (legs_left left.entry))) (full_row_of vl.now left.entry.at.module.0 left.entry.at.port.0)
        result steps.old steps.new }
{
    if left.ways.is_empty() {
        let full = full_row(vl, left.at);
        return up(vl, &left.legs[left.from..], full, steps);
    }
    if left.from == left.legs.len() {
        return left.ways[left.from];
    }
    up_leg(vl, left.legs[left.from], left.ways[left.from + 1], steps)
}

/// Whether the row comes down the legs that are left to an output of the module to which they lead. Of legs that have ways at most one is gone.
pub(crate) fn comes_to<L: Ledger>(
    vl: &ViewLabel<'_>,
    row: u64,
    left: LegsLeft<'_>,
    steps: &mut Steps<L>,
) -> bool
    requires way { LeadOn vl.now left }
    requires columns { HaveColumns vl.now left }
    ensures { IsBit (matrices_below vl.now (legs_left left.entry) left.entry.at.module.0) row steps.old steps.new left.entry.at.port.0 result }
{
    if left.ways.is_empty() {
        let last = down(vl, &left.legs[left.from..], row, steps);
        return ends_in(vl, last, left.at, steps);
    }
    if left.from == left.legs.len() {
        return meet(row, left.ways[left.from]);
    }
    let last = down_leg(vl, left.legs[left.from], row, steps);
    meet(last, left.ways[left.from + 1])
}
