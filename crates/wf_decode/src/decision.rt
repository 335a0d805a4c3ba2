// The decision from two labels and the label of a view.
ghost use Rattle.std.specs.Prelude.{◌≡◌, ◌+◌, ◌≤◌, ℕ, length};
ghost use Rattle.wf_model.specs.declared.numbers.Side.TheVariants.{Input, Output};
ghost use Rattle.wf_recur.specs.Cycles.{round_at};
ghost use Rattle.wf_label.specs.Values.{AreLabelBits};
ghost use Rattle.decode_model.specs.Counts.{most_products};
ghost use Rattle.verdict_model.specs.Verdicts.{IsVerdict, NeverDepends};
ghost use Rattle.verdict_model.specs.declared.verdict.Verdict.TheVariants.{No};
ghost use Rattle.wf_decode.specs.Answers.{IsDecision, HaveEnds, OfEnds, OfLabels};
ghost use Rattle.wf_decode.specs.HeldWays.{AreWaysOf, IfHeld};
ghost use Rattle.wf_decode.specs.Reading.{most_legs};

mod answers;
mod ends;
mod held;
mod legs_left;
mod products;
mod ways;

use crate::decision::answers::answer;
use crate::decision::ends::{End, end_on};
use crate::leg::Leg;
use crate::scratch::Scratch;
use bool_mat::Steps;
pub use held::{HeldEnd, decide_from, decide_to};
use std::sync::ledger::Ledger;
use verdict_model::Verdict;
use wf_label::LabelRef;
use wf_spec::Side;
use wf_vlabel::ViewLabel;

/// Whether the item of the second label depends on the item of the first, from the two labels and the label of a view alone, however a run that has both is finished.
///
/// It takes no memory and knows no run. Each of the two may be of any label of the grammar, of one run or not. `Hidden1` comes before `Hidden2`, and both before `Clash`.
///
/// Where no cycle is longer than `l`, it makes at most `2(h + 1) + 2q(24 + l)` row products, for `h` strong components of composite modules and `q` cycles, however long the run was.
///
/// Source of the idea: Bao, Davidson, Milo, "Labeling Workflow Views with Fine-Grained Dependencies", VLDB 2012 (decoding of two data labels by a view label).
pub fn decide<L: Ledger>(
    vl: &ViewLabel<'_>,
    scratch: &mut Scratch,
    first: LabelRef<'_>,
    second: LabelRef<'_>,
    steps: &mut Steps<L>,
) -> Verdict
    requires first { AreLabelBits vl.now.grammar first }
    requires second { AreLabelBits vl.now.grammar second }
    requires room { most_legs vl.now.grammar ≤ scratch.old }
    ensures verdict { OfLabels vl.now first.entry second.entry (λ u x y. IsVerdict vl.now.grammar u x y result) }
    ensures no { OfLabels vl.now first.entry second.entry (λ u x y. result ≡ No → NeverDepends vl.now.grammar u x y) }
    ensures room { scratch.new ≡ scratch.old }
    ensures cost { (l : ℕ) → ((k : ℕ) → length (round_at vl.now.cycles k) ≤ l) → steps.new ≤ steps.old + most_products vl.now.grammar l }
{
    decide_in(
        vl,
        &first,
        scratch.first.as_mut_slice(),
        &second,
        scratch.second.as_mut_slice(),
        steps,
    )
}

/// The same, where the legs of the labels are held in these places.
fn decide_in<L: Ledger>(
    vl: &ViewLabel<'_>,
    first: &LabelRef<'_>,
    first_legs: &mut [Leg],
    second: &LabelRef<'_>,
    second_legs: &mut [Leg],
    steps: &mut Steps<L>,
) -> Verdict
    requires first { AreLabelBits vl.now.grammar first.now }
    requires first_room { most_legs vl.now.grammar ≤ length first_legs.old }
    requires second { AreLabelBits vl.now.grammar second.now }
    requires second_room { most_legs vl.now.grammar ≤ length second_legs.old }
    ensures decision { OfLabels vl.now first.now second.now (λ u x y. IsDecision vl.now.grammar u x y result) }
    ensures cost { (l : ℕ) → ((k : ℕ) → length (round_at vl.now.cycles k) ≤ l) → steps.new ≤ steps.old + most_products vl.now.grammar l }
    ensures first_length { length first_legs.new ≡ length first_legs.old }
    ensures second_length { length second_legs.new ≡ length second_legs.old }
{
    // The view label is one of a view.
    let _label = vl.cycles();
    let from = end_on(vl, Side::Input, first, first_legs);
    if let End::Hidden = from {
        return Verdict::Hidden1;
    }
    let to = end_on(vl, Side::Output, second, second_legs);
    decide_ends(vl, from, first_legs, &[], to, second_legs, &[], steps)
}

/// The verdict on two labels, from where the first item is consumed and where the second is produced, and the ways of one that is held.
fn decide_ends<L: Ledger>(
    vl: &ViewLabel<'_>,
    from: End,
    first_legs: &mut [Leg],
    rows: &[u64],
    to: End,
    second_legs: &mut [Leg],
    columns: &[u64],
    steps: &mut Steps<L>,
) -> Verdict
    requires ends { HaveEnds vl.now from first_legs.old to second_legs.old }
    requires rows { IfHeld rows.now (AreWaysOf Input vl.now from first_legs.old rows.now) }
    requires columns { IfHeld columns.now (AreWaysOf Output vl.now to second_legs.old columns.now) }
    ensures decision { OfEnds vl.now from first_legs.old to second_legs.old (λ u x y. IsDecision vl.now.grammar u x y result) }
    ensures cost { (l : ℕ) → ((k : ℕ) → length (round_at vl.now.cycles k) ≤ l) → steps.new ≤ steps.old + most_products vl.now.grammar l }
    ensures first_length { length first_legs.new ≡ length first_legs.old }
    ensures second_length { length second_legs.new ≡ length second_legs.old }
{
    // The view label is one of a view.
    let _label = vl.cycles();
    match from {
        End::Hidden => Verdict::Hidden1,
        End::Nowhere => match to {
            End::Hidden => Verdict::Hidden2,
            _ => Verdict::No,
        },
        End::At { legs: n, at: input } => match to {
            End::Hidden => Verdict::Hidden2,
            End::Nowhere => Verdict::No,
            End::At {
                legs: k,
                at: output,
            } => answer(
                vl,
                &mut first_legs[..n],
                input,
                rows,
                &mut second_legs[..k],
                output,
                columns,
                steps,
            ),
        },
    }
}
