// One entry, and its line.
ghost use Rattle.std.specs.Prelude.{◌≡◌, ◌+◌, ◌≤◌, ◌++◌, ℕ, length, codes, OnOk, IsErr};
ghost use Rattle.wf_model.specs.View.{View};
ghost use Rattle.label_model.specs.Labels.{Label, IsLabel, label_bits};
ghost use Rattle.wf_io.specs.Told.{Rose};
ghost use Rattle.wf_lines.specs.Taking.{IsDue, IsCut};
ghost use Rattle.wf_label.specs.Values.{AreLabelBits};
ghost use Rattle.wf_recur.specs.Cycles.{round_at};
ghost use Rattle.decode_model.specs.Counts.{most_products};
ghost use Rattle.wf_vlabel.specs.Seen.{IsLabelOfView};
ghost use Rattle.wf_decode.specs.HeldEnds.{IsHeldEnd};
ghost use Rattle.wf_decode.specs.Reading.{most_legs};
ghost use Rattle.wf_lineage.specs.Directions.{side_of};
ghost use Rattle.wf_lineage.specs.Listed.{IsVerdictOn, IsListed};
ghost use Rattle.wf_lineage.specs.Lines.{OfEntry, IsLineDue, IsLineCut};

use crate::direction::Direction;
use bool_mat::Steps;
use std::sync::ledger::Ledger;
use wf_decode::{HeldEnd, Scratch, Verdict, decide_from, decide_to};
use wf_io::{Failed, Sink};
use wf_label::LabelRef;
use wf_lines::Due;
use wf_vlabel::ViewLabel;

/// The verdict on the label of an item, which was read, and that of another one, in a direction.
fn verdict_on<L: Ledger>(
    vl: &ViewLabel<'_>,
    scratch: &mut Scratch,
    direction: Direction,
    of: &HeldEnd<'_>,
    other: LabelRef<'_>,
    steps: &mut Steps<L>,
) -> Verdict
    requires of { IsHeldEnd vl.now (side_of direction) of.now }
    requires other { AreLabelBits vl.now.grammar other }
    requires room { most_legs vl.now.grammar ≤ scratch.old }
    ensures verdict { (u : View) (y x : Label) → IsLabelOfView vl.now u → IsLabel vl.now.grammar y → IsLabel vl.now.grammar x →
        of.now.bits ≡ label_bits y → other.entry ≡ label_bits x → IsVerdictOn vl.now.grammar u direction y x result }
    ensures room { scratch.new ≡ scratch.old }
    ensures cost { (l : ℕ) → ((k : ℕ) → length (round_at vl.now.cycles k) ≤ l) → steps.new ≤ steps.old + most_products vl.now.grammar l }
{
    match direction {
        Direction::Upstream => decide_to(vl, scratch, other, of, steps),
        Direction::Downstream => decide_from(vl, scratch, of, other, steps),
    }
}

/// A name and a newline are due behind what is.
fn add_line<O: Sink>(name: &[u8], due: &mut Due, out: &mut O) -> Result<(), Failed>
    ensures ok { OnOk result (IsDue (due.old ++ (name.now ++ codes "\n")) due.new (O.put_bytes out.old) (O.put_bytes out.new)) }
    ensures err { IsErr result → IsCut (due.old ++ (name.now ++ codes "\n")) (O.put_bytes out.old) (O.put_bytes out.new) }
    ensures same { OnOk result (O.faults out.new ≡ O.faults out.old) }
    ensures later { O.faults out.old ≤ O.faults out.new }
    ensures cause { IsErr result → Rose (O.faults out.old) (O.faults out.new) (O.at_last out.new) }
{
    due.add(out, name)?;
    due.add(out, b"\n")
}

/// The line of an entry is due behind what is, if the entry is listed for the item of a label.
pub(crate) fn add_entry<L: Ledger, O: Sink>(
    vl: &ViewLabel<'_>,
    scratch: &mut Scratch,
    direction: Direction,
    of: &HeldEnd<'_>,
    name: &[u8],
    label: LabelRef<'_>,
    steps: &mut Steps<L>,
    due: &mut Due,
    out: &mut O,
) -> Result<(), Failed>
    requires of { IsHeldEnd vl.now (side_of direction) of.now }
    requires label { AreLabelBits vl.now.grammar label }
    requires room { most_legs vl.now.grammar ≤ scratch.old }
    ensures ok { OnOk result (OfEntry vl.now (record { name = name.now; bits = label.entry }) of.now.bits (λ u e y.
        IsLineDue (IsListed vl.now.grammar u direction y e) e.name due.old due.new (O.put_bytes out.old) (O.put_bytes out.new))) }
    ensures err { IsErr result → OfEntry vl.now (record { name = name.now; bits = label.entry }) of.now.bits (λ u e y.
        IsLineCut (IsListed vl.now.grammar u direction y e) e.name due.old (O.put_bytes out.old) (O.put_bytes out.new)) }
    ensures room { scratch.new ≡ scratch.old }
    ensures cost { (l : ℕ) → ((k : ℕ) → length (round_at vl.now.cycles k) ≤ l) → steps.new ≤ steps.old + most_products vl.now.grammar l }
    ensures same { OnOk result (O.faults out.new ≡ O.faults out.old) }
    ensures later { O.faults out.old ≤ O.faults out.new }
    ensures cause { IsErr result → Rose (O.faults out.old) (O.faults out.new) (O.at_last out.new) }
{
    let verdict = verdict_on(vl, scratch, direction, of, label, steps);
    match verdict {
        Verdict::Yes => add_line(name, due, out),
        _ => Ok(()),
    }
}
