// The labels of the items of pairs, as bytes, and read back from them.
ghost use Rattle.std.specs.Prelude.{◌≡◌, ◌<◌, ◌++◌, ◌∷◌, [], List, length, get_or, map, IfOk, OnOk};
ghost use Rattle.bit_pack.specs.Bits.{packed};
ghost use Rattle.label_model.specs.Labels.{Label, label_bits};
ghost use Rattle.wf_label.specs.Values.{AreLabelBits};
ghost use Rattle.cmd_make.specs.DrillText.{label_no};
ghost use Rattle.cmd_make.specs.HeldLabels.{AreHeldLabels, AreWithin, pair_of, firsts_of, seconds_of};

use crate::pairs::Pair;
use bit_pack::BitWriter;
use std::alloc::{AllocError, Global};
use wf_label::LabelRef;
use wf_labeller::{LabelledRun, Labels};
use wf_recur::Linear;

/// The labels of the two items of each of some pairs.
#[derive(Drop)]
pub(crate) struct PairLabels {
    pub(crate) firsts: Labels,
    pub(crate) seconds: Labels,
}

/// Appends the label of an item of a run. The only error is that memory is refused.
fn add_label(
    run: &LabelledRun<'_>,
    item: usize,
    bits: &mut BitWriter,
    to: &mut Labels,
) -> Result<(), AllocError>
    requires { item < length run.now.labels }
    ensures { OnOk result (to.new ≡ to.old ++ packed (get_or run.now.labels item []) ∷ []) }
{
    run.write_label(item, bits)?;
    to.push(bits.bytes())
}

/// The labels of the items of pairs, made again from their numbers. Fails only for want of memory.
pub(crate) fn labels_of(
    alloc: Global,
    run: &LabelledRun<'_>,
    pairs: &[Pair],
) -> Result<PairLabels, AllocError>
    requires { AreWithin (length run.now.labels) (map pair_of pairs.now) }
    ensures firsts { IfOk result (λ h. h.firsts ≡ firsts_of run.now.labels (map pair_of pairs.now)) }
    ensures seconds { IfOk result (λ h. h.seconds ≡ seconds_of run.now.labels (map pair_of pairs.now)) }
{
    let mut bits = BitWriter::new(alloc);
    let mut firsts = Labels::new(alloc);
    let mut seconds = Labels::new(alloc);
    for i in 0..pairs.len() {
        add_label(run, pairs[i].first, &mut bits, &mut firsts)?;
        add_label(run, pairs[i].second, &mut bits, &mut seconds)?;
    }
    Ok(PairLabels { firsts, seconds })
}

/// The label of a number.
pub(crate) fn label_of<'l>(g: Linear<'_>, labels: &'l Labels, i: usize) -> LabelRef<'l>
    requires held { (ls : List Label) × AreHeldLabels g.grammar.now.core ls labels.now }
    requires in_range { i < length labels.now }
    ensures bits { (ls : List Label) → AreHeldLabels g.entry.grammar.now.core ls labels.now → result ≡ label_bits (label_no ls i) }
    ensures label { AreLabelBits g.entry.grammar.now.core result }
{
    match LabelRef::check(g, labels.label(i)) {
        Ok(label) => label,
        Err(_) => unreachable!(),
    }
}
