// Labels in a state of an automaton.
ghost use Rattle.std.specs.Prelude.{◌≡◌, ◌+◌, ◌^◌, ◌<◌, ◌≤◌, ◌++◌, length, take, IfOk};
ghost use Rattle.bit_pack.specs.Gamma.{gamma};
ghost use Rattle.words_model.specs.Laws.{Fits};
ghost use Rattle.words_model.specs.Lifting.{in_state, lift};
ghost use Rattle.wf_label.specs.Values.{AreLabelBits};
ghost use Rattle.wf_words.specs.LastParts.{AreLiftedBits};

use crate::last_part::{LastPart, last_part};
use bit_pack::{Bits, RoomyWriter};
use std::alloc::{AllocError, Global};
use wf_automaton::Automaton;
use wf_label::LabelRef;
use wf_recur::Linear;

/// Writes a label in a state, in place of what was written: its bits up to its last part, and then the number of its port, or of its edge, in the state. There is room for both.
///
/// Cost: linear in the bytes of the label, which are copied.
pub(crate) fn write_lifted(
    w: &mut RoomyWriter,
    label: &LabelRef<'_>,
    last: LastPart,
    states: u8,
    state: u8,
)
    requires inside { last.at ≤ length label.now }
    requires few { last.at < 2 ^ 17 }
    requires room { last.at + 127 ≤ w.old.room }
    ensures bits { w.new.bits ≡ take last.at label.now ++ gamma (in_state states state last.number + 1) }
    ensures few { length w.new.bits < 2 ^ 18 }
    ensures room { w.new.room ≡ w.old.room }
{
    w.restart(label.bytes(), last.at);
    w.gamma(last.number as u64 * states as u64 + state as u64 + 1);
}

/// The label that was written.
pub(crate) fn written(w: &RoomyWriter) -> LabelRef<'_>
    requires { length w.now.bits < 2 ^ 32 }
    ensures { result ≡ w.now.bits }
{
    LabelRef::new(w.bytes(), w.length())
}

/// The bits of a label of the grammar in a state of the automaton. They are those of a label of the lifted grammar.
///
/// The only error is that memory is refused. Cost: linear in the bits.
pub fn lift_label(
    alloc: Global,
    g: Linear<'_>,
    a: &Automaton,
    x: LabelRef<'_>,
    state: u8,
) -> Result<Bits, AllocError>
    requires fits { Fits g.grammar.now.core a.now }
    requires label { AreLabelBits g.grammar.now.core x }
    requires state { state < a.now.states }
    ensures bits { IfOk result (AreLiftedBits g.entry.grammar.now.core a.now.states state x.entry) }
    ensures label { IfOk result (AreLabelBits (lift g.entry.grammar.now.core a.now.states)) }
{
    let last = last_part(g, &x);
    let mut w = RoomyWriter::with_room(alloc, last.at + 127)?;
    write_lifted(&mut w, &x, last, a.states(), state);
    Ok(w.finish())
}
