// The last part of a label.
ghost use Rattle.std.specs.Prelude.{◌≡◌, ◌+◌, ◌^◌, ◌<◌, ◌≤◌, length};
ghost use Rattle.bit_pack.specs.Gamma.{gamma};
ghost use Rattle.label_model.specs.Labels.{Label, IsLabel, label_bits};
ghost use Rattle.wf_label.specs.Marks.{mark_of};
ghost use Rattle.wf_label.specs.Values.{AreLabelBits};
ghost use Rattle.wf_words.specs.LastParts.{IsLastPartOf, number_by, port_or_edge};

use wf_label::{LabelRef, Mark};
use wf_recur::Linear;

/// The number of the port of a label, or of its edge, and how many bits stand before its code.
#[derive(Clone, Copy)]
pub(crate) struct LastPart {
    pub(crate) at: u32,
    pub(crate) number: u16,
}

/// The number of the port or edge that a mark names, and otherwise the one before.
fn number_by(before: u16, mark: Mark) -> u16
    ensures { result ≡ number_by before (mark_of mark) }
{
    match mark {
        Mark::Input(port) => port.0 as u16,
        Mark::Output(port) => port.0 as u16,
        Mark::Chain(_) => before,
        Mark::Into(_) => before,
        Mark::End {
            production: _,
            edge,
        } => edge.0,
    }
}

/// The number of the port of a label, or of its edge.
///
/// Cost: linear in the bits of the label.
fn port_or_edge(g: Linear<'_>, label: &LabelRef<'_>) -> u16
    requires { AreLabelBits g.grammar.now.core label.now }
    ensures { (l : Label) → IsLabel g.entry.grammar.now.core l → label.now ≡ label_bits l → result ≡ port_or_edge l }
{
    let mut cursor = label.cursor(g);
    let mut number = 0;
    while let Some(mark) = cursor.next() {
        number = number_by(number, mark);
    }
    number
}

/// How many bits the code of a number with one added has.
fn code_length(number: u16) -> u32
    ensures { result ≡ length (gamma (number + 1)) }
{
    2 * (32 - (number as u32 + 1).leading_zeros()) - 1
}

/// The last part of a label.
///
/// Cost: linear in the bits of the label.
pub(crate) fn last_part(g: Linear<'_>, label: &LabelRef<'_>) -> LastPart
    requires { AreLabelBits g.grammar.now.core label.now }
    ensures part { IsLastPartOf g.entry.grammar.now.core label.now result.at result.number }
    ensures inside { result.at ≤ length label.now }
    ensures few { result.at < 2 ^ 17 }
{
    // A grammar is well-formed.
    let _formed = g.grammar.start();
    let number = port_or_edge(g, label);
    LastPart {
        at: label.length() - code_length(number),
        number,
    }
}
