// The answer of two ports.
ghost use Rattle.std.specs.Prelude.{◌≡◌, ◌+◌, ◌≤◌, ℕ, cond, length};
ghost use Rattle.wf_recur.specs.Cycles.{round_at};
ghost use Rattle.decode_model.specs.Counts.{most_products};
ghost use Rattle.verdict_model.specs.declared.verdict.Verdict.TheVariants.{Yes, No};
ghost use Rattle.wf_decode.specs.Answers.{HaveAddresses, AnswersAddresses};
ghost use Rattle.wf_decode.specs.HeldWays.{AreColumnsDown, AreRowsUp, IfHeld};

use crate::decision::ends::ModulePort;
use crate::decision::legs_left::LegsLeft;
use crate::decision::products::{above, across, below};
use crate::leg::Leg;
use crate::parting::{Parted, part};
use bool_mat::Steps;
use std::sync::ledger::Ledger;
use verdict_model::Verdict;
use wf_vlabel::ViewLabel;

fn verdict_by(bit: bool) -> Verdict
    ensures { result ≡ cond bit Yes No }
{
    if bit { Verdict::Yes } else { Verdict::No }
}

/// Whether an output of the second instance is reached from an input of the first, from the legs of their addresses, and the ways of the legs of a label that is held. What is left of the legs after the two part stands in their places.
pub(crate) fn answer<L: Ledger>(
    vl: &ViewLabel<'_>,
    first: &mut [Leg],
    from: ModulePort,
    rows: &[u64],
    second: &mut [Leg],
    to: ModulePort,
    columns: &[u64],
    steps: &mut Steps<L>,
) -> Verdict
    requires ends { HaveAddresses vl.now first.old from.module.0 from.port.0 second.old to.module.0 to.port.0 }
    requires rows { IfHeld rows.now (AreRowsUp vl.now first.old from.module.0 from.port.0 rows.now) }
    requires columns { IfHeld columns.now (AreColumnsDown vl.now second.old to.module.0 to.port.0 columns.now) }
    ensures answer { AnswersAddresses vl.now first.old from.module.0 from.port.0 second.old to.module.0 to.port.0 result }
    ensures cost { (l : ℕ) → ((k : ℕ) → length (round_at vl.now.cycles k) ≤ l) → steps.new ≤ steps.old + most_products vl.now.grammar l }
    ensures first_length { length first.new ≡ length first.old }
    ensures second_length { length second.new ≡ length second.old }
{
    // The view label is one of a view.
    let _label = vl.cycles();
    match part(vl, first, second) {
        Parted::Clash => Verdict::Clash,
        Parted::Across {
            first: first_step,
            first_from,
            second: second_step,
            second_from,
        } => {
            let up = LegsLeft {
                legs: first,
                from: first_from,
                at: from,
                ways: rows,
            };
            let down = LegsLeft {
                legs: second,
                from: second_from,
                at: to,
                ways: columns,
            };
            verdict_by(across(vl, first_step, up, second_step, down, steps))
        }
        Parted::Down { second_from } => {
            let left = LegsLeft {
                legs: second,
                from: second_from,
                at: to,
                ways: columns,
            };
            verdict_by(below(vl, from.port, left, steps))
        }
        Parted::Up { first_from } => {
            let left = LegsLeft {
                legs: first,
                from: first_from,
                at: from,
                ways: rows,
            };
            verdict_by(above(vl, left, to.port, steps))
        }
    }
}
