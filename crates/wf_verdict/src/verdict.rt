// The verdict on two labels under a view.
ghost use Rattle.std.specs.Prelude.{◌≡◌, ◌≤◌, ◌<◌, IfOk};
ghost use Rattle.wf_model.specs.View.{View as ViewSeen};
ghost use Rattle.label_model.specs.Labels.{Label, IsLabel, label_bits};
ghost use Rattle.wf_label.specs.Values.{AreLabelBits};
ghost use Rattle.verdict_model.specs.Verdicts.{IsVerdict};
ghost use Rattle.wf_vlabel.specs.Seen.{IsLabelOfView};
ghost use Rattle.wf_decode.specs.Reading.{most_legs};

use bool_mat::Steps;
use std::alloc::{AllocError, Global};
use std::marker::Brand;
use std::sync::ledger::{Blank, Ledger};
use wf_decode::{Scratch, Verdict, decide};
use wf_label::LabelRef;
use wf_safe::SafeView;
use wf_vlabel::ViewLabel;

/// The verdict on two labels, with a counter of row products of its own.
fn decided<L: Ledger>(
    blank: Blank,
    vl: &ViewLabel<'_>,
    scratch: &mut Scratch,
    first: LabelRef<'_>,
    second: LabelRef<'_>,
) -> Verdict
    requires name { blank.name ≡ L.name }
    requires parts { blank.parts ≡ L.parts }
    requires some { 0 < blank.parts }
    requires first { AreLabelBits vl.now.grammar first }
    requires second { AreLabelBits vl.now.grammar second }
    requires room { most_legs vl.now.grammar ≤ scratch.old }
    ensures { (u : ViewSeen) (x y : Label) → IsLabelOfView vl.now u → IsLabel vl.now.grammar x →
        IsLabel vl.now.grammar y → first.entry ≡ label_bits x → second.entry ≡ label_bits y → IsVerdict vl.now.grammar u x y result }
{
    let mut steps = Steps::<L>::new(blank);
    decide(vl, scratch, first, second, &mut steps)
}

/// The verdict on two labels of a grammar, from the label of a safe view alone. Fails only for want of memory.
///
/// Cost: those of `ViewLabel::build` and of `decide`.
pub fn verdict_of(
    alloc: Global,
    v: &SafeView<'_>,
    first: LabelRef<'_>,
    second: LabelRef<'_>,
) -> Result<Verdict, AllocError>
    requires first { AreLabelBits v.now.accepted.grammar.core first }
    requires second { AreLabelBits v.now.accepted.grammar.core second }
    ensures verdict { IfOk result (λ r. (x y : Label) → IsLabel v.now.accepted.grammar.core x → IsLabel v.now.accepted.grammar.core y →
        first.entry ≡ label_bits x → second.entry ≡ label_bits y → IsVerdict v.now.accepted.grammar.core v.now.view.core x y r) }
{
    let label = ViewLabel::build(alloc, v)?;
    let mut scratch = Scratch::for_view(alloc, &label)?;
    Ok(decided::<Brand>(Blank::new(1), &label, &mut scratch, first, second))
}
