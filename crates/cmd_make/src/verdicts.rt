// The verdicts on pairs of labels under a view.
ghost use Rattle.std.specs.Prelude.{◌≡◌, ◌≤◌, ◌<◌, ℕ, List, length, get_or, IfOk};
ghost use Rattle.wf_model.specs.View.{View as ViewSeen};
ghost use Rattle.label_model.specs.Labels.{Label};
ghost use Rattle.verdict_model.specs.Verdicts.{IsVerdict};
ghost use Rattle.wf_vlabel.specs.Seen.{IsLabelOfView};
ghost use Rattle.wf_decode.specs.Reading.{most_legs};
ghost use Rattle.cmd_make.specs.DrillText.{label_no, AreVerdicts};
ghost use Rattle.cmd_make.specs.HeldLabels.{AreHeldPairs, no_pair};

use crate::held::{PairLabels, label_of};
use bool_mat::Steps;
use std::alloc::{AllocError, Global};
use std::marker::Brand;
use std::sync::ledger::{Blank, Ledger};
use wf_decode::{Scratch, Verdict, decide};
use wf_safe::SafeView;
use wf_vlabel::ViewLabel;

/// The verdict on the labels of the pair of a number.
fn verdict_on<L: Ledger>(
    vl: &ViewLabel<'_>,
    scratch: &mut Scratch,
    steps: &mut Steps<L>,
    labels: &PairLabels,
    i: usize,
) -> Verdict
    requires held { (ls : List Label) × (ps : List (ℕ × ℕ)) × AreHeldPairs vl.now.grammar ls ps labels.now }
    requires in_range { i < length labels.now.firsts }
    requires room { most_legs vl.now.grammar ≤ scratch.old }
    ensures verdict { (u : ViewSeen) (ls : List Label) (ps : List (ℕ × ℕ)) → IsLabelOfView vl.now u → AreHeldPairs vl.now.grammar ls ps labels.now
        → IsVerdict vl.now.grammar u (label_no ls (get_or ps i no_pair).0) (label_no ls (get_or ps i no_pair).1) result }
    ensures room { scratch.new ≡ scratch.old }
{
    let linear = vl.linear();
    let first = label_of(linear, &labels.firsts, i);
    let second = label_of(linear, &labels.seconds, i);
    decide(vl, scratch, first, second, steps)
}

/// The verdicts on pairs of labels, one for each, with a counter of row products of their own. Fails only for want of memory.
fn verdicts_on<L: Ledger>(
    blank: Blank,
    alloc: Global,
    vl: &ViewLabel<'_>,
    scratch: &mut Scratch,
    labels: &PairLabels,
) -> Result<Vec<Verdict>, AllocError>
    requires name { blank.name ≡ L.name }
    requires parts { blank.parts ≡ L.parts }
    requires some { 0 < blank.parts }
    requires held { (ls : List Label) × (ps : List (ℕ × ℕ)) × AreHeldPairs vl.now.grammar ls ps labels.now }
    requires room { most_legs vl.now.grammar ≤ scratch.old }
    ensures { IfOk result (λ vs. (u : ViewSeen) (ls : List Label) (ps : List (ℕ × ℕ)) → IsLabelOfView vl.now u → AreHeldPairs vl.now.grammar ls ps labels.now
        → AreVerdicts vl.now.grammar u ls ps vs.items) }
{
    let mut steps = Steps::<L>::new(blank);
    let count = labels.firsts.count();
    let mut verdicts = Vec::with_capacity(alloc, count)?;
    for i in 0..count {
        let verdict = verdict_on(vl, scratch, &mut steps, labels, i);
        verdicts.push(verdict)?;
    }
    Ok(verdicts)
}

/// The verdicts on pairs of labels of a grammar, from the label of a safe view alone, one for each pair. Fails only for want of memory.
///
/// Cost: those of `ViewLabel::build`, and of one `decide` for each pair.
pub(crate) fn verdicts_of(
    alloc: Global,
    v: &SafeView<'_>,
    labels: &PairLabels,
) -> Result<Vec<Verdict>, AllocError>
    requires held { (ls : List Label) × (ps : List (ℕ × ℕ)) × AreHeldPairs v.now.accepted.grammar.core ls ps labels.now }
    ensures { IfOk result (λ vs. (ls : List Label) (ps : List (ℕ × ℕ)) → AreHeldPairs v.now.accepted.grammar.core ls ps labels.now
        → AreVerdicts v.now.accepted.grammar.core v.now.view.core ls ps vs.items) }
{
    let label = ViewLabel::build(alloc, v)?;
    let mut scratch = Scratch::for_view(alloc, &label)?;
    verdicts_on::<Brand>(Blank::new(1), alloc, &label, &mut scratch, labels)
}
