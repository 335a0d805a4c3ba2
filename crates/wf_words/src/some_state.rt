// Whether a label is reached in some state that accepts.
ghost use Rattle.std.specs.Prelude.{◌≡◌, ◌↔◌, ◌+◌, ◌*◌, ◌^◌, ◌<◌, ◌≤◌, ℕ, IsTrue, length};
ghost use Rattle.wf_model.specs.Lists.{IsIn};
ghost use Rattle.decode_model.specs.Counts.{most_products};
ghost use Rattle.wf_label.specs.Values.{AreLabelBits};
ghost use Rattle.wf_recur.specs.Cycles.{round_at};
ghost use Rattle.wf_decode.specs.Reading.{most_legs};
ghost use Rattle.wf_words.specs.LastParts.{IsLastPartOf, HasLabelRoom};
ghost use Rattle.wf_words.specs.WordViews.{OfLifted, IsYesIn, accepting_states};

use crate::last_part::{LastPart, last_part};
use crate::lifting::{write_lifted, written};
use crate::word_view::WordView;
use bit_pack::RoomyWriter;
use bool_mat::Steps;
use std::sync::ledger::Ledger;
use wf_decode::{Scratch, Verdict, decide};
use wf_label::LabelRef;

/// Whether a state accepts, and the verdict in the lifted grammar is yes for the first label, which is lifted, and the second in this state.
fn is_yes_in<L: Ledger>(
    words: &WordView<'_, '_, '_>,
    first: &LabelRef<'_>,
    second: &LabelRef<'_>,
    last: LastPart,
    state: u8,
    scratch: &mut Scratch,
    w: &mut RoomyWriter,
    steps: &mut Steps<L>,
) -> bool
    requires first { AreLabelBits words.now.lifted.grammar first.now }
    requires second { AreLabelBits words.now.plain.grammar second.now }
    requires last { IsLastPartOf words.now.plain.grammar second.now last.at last.number }
    requires inside { last.at ≤ length second.now }
    requires few { last.at < 2 ^ 17 }
    requires state { state < words.now.automaton.states }
    requires room { most_legs words.now.lifted.grammar ≤ scratch.old }
    requires label_room { HasLabelRoom w.old }
    ensures yes { OfLifted words.now first.now second.now (λ u x y. IsTrue result ↔ IsYesIn words.now u x y state) }
    ensures room { scratch.new ≡ scratch.old }
    ensures label_room { w.new.room ≡ w.old.room }
    ensures idle { ¬ IsIn state words.now.automaton.accept → steps.new ≡ steps.old }
    ensures cost { (l : ℕ) → ((k : ℕ) → length (round_at words.now.lifted.cycles k) ≤ l) → steps.new ≤ steps.old + most_products words.now.lifted.grammar l }
{
    if !words.automaton.accepts(state) {
        return false;
    }
    write_lifted(w, second, last, words.automaton.states(), state);
    let verdict = decide(words.lifted, scratch, first.copied(), written(w), steps);
    match verdict {
        Verdict::Yes => true,
        _ => false,
    }
}

/// Whether the verdict in the lifted grammar is yes for the first label, which is lifted, and the second in some state that accepts. The states are tried in ascending order, up to the first yes.
pub(crate) fn is_yes_in_some<L: Ledger>(
    words: &WordView<'_, '_, '_>,
    first: &LabelRef<'_>,
    second: &LabelRef<'_>,
    scratch: &mut Scratch,
    w: &mut RoomyWriter,
    steps: &mut Steps<L>,
) -> bool
    requires first { AreLabelBits words.now.lifted.grammar first.now }
    requires second { AreLabelBits words.now.plain.grammar second.now }
    requires room { most_legs words.now.lifted.grammar ≤ scratch.old }
    requires label_room { HasLabelRoom w.old }
    ensures yes { OfLifted words.now first.now second.now (λ u x y. IsTrue result ↔ ((t : ℕ) × IsYesIn words.now u x y t)) }
    ensures room { scratch.new ≡ scratch.old }
    ensures label_room { w.new.room ≡ w.old.room }
    ensures cost { (l : ℕ) → ((k : ℕ) → length (round_at words.now.lifted.cycles k) ≤ l)
        → steps.new ≤ steps.old + accepting_states words.now.automaton * most_products words.now.lifted.grammar l }
{
    let last = last_part(words.plain.linear(), second);
    for state in 0..words.automaton.states() {
        if is_yes_in(words, first, second, last, state, scratch, w, steps) {
            return true;
        }
    }
    false
}
