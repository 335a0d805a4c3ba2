// The verdict on two labels by an automaton.
ghost use Rattle.std.specs.Prelude.{◌≡◌, ◌+◌, ◌*◌, ◌≤◌, ℕ, IsTrue, ◌↔◌, length};
ghost use Rattle.decode_model.specs.Counts.{most_products};
ghost use Rattle.words_model.specs.Verdicts.{IsLiftedYes, IsWordVerdict};
ghost use Rattle.wf_label.specs.Values.{AreLabelBits};
ghost use Rattle.wf_recur.specs.Cycles.{round_at};
ghost use Rattle.wf_decode.specs.Reading.{most_legs};
ghost use Rattle.wf_words.specs.WordViews.{OfWords, accepting_states};

use crate::last_part::last_part;
use crate::lifting::{write_lifted, written};
use crate::scratch::WordScratch;
use crate::some_state::is_yes_in_some;
use crate::word_view::WordView;
use bool_mat::Steps;
use std::sync::ledger::Ledger;
use wf_decode::{Verdict, decide};
use wf_label::LabelRef;

/// Whether the verdict in the lifted grammar is yes for the first label in the start state and the second in some state that accepts.
fn is_lifted_yes<L: Ledger>(
    words: &WordView<'_, '_, '_>,
    scratch: &mut WordScratch,
    first: &LabelRef<'_>,
    second: &LabelRef<'_>,
    steps: &mut Steps<L>,
) -> bool
    requires first { AreLabelBits words.now.plain.grammar first.now }
    requires second { AreLabelBits words.now.plain.grammar second.now }
    requires room { most_legs words.now.plain.grammar ≤ scratch.old }
    ensures yes { OfWords words.now first.now second.now (λ u x y. IsTrue result ↔ IsLiftedYes words.now.plain.grammar u words.now.automaton x y) }
    ensures room { scratch.new ≡ scratch.old }
    ensures cost { (l : ℕ) → ((k : ℕ) → length (round_at words.now.lifted.cycles k) ≤ l)
        → steps.new ≤ steps.old + accepting_states words.now.automaton * most_products words.now.lifted.grammar l }
{
    let last = last_part(words.plain.linear(), first);
    let automaton = words.automaton;
    write_lifted(
        &mut scratch.first,
        first,
        last,
        automaton.states(),
        automaton.start(),
    );
    is_yes_in_some(
        words,
        &written(&scratch.first),
        second,
        &mut scratch.legs,
        &mut scratch.second,
        steps,
    )
}

/// Whether a path leads from the item of the first label to that of the second whose modules the automaton accepts, in order, from the two labels and the labels of the views alone, however a run that has both is finished.
///
/// It knows no run. Each of the two may be of any label of the grammar, of one run or not. `Hidden1` comes before `Hidden2`, and both before `Clash`. Where no path joins the items at all, no label is lifted.
///
/// It takes no memory: the labels are written into the room of `scratch`, which holds more than any label has.
///
/// Cost: one decision for the view, and at most one in the lifted grammar for each state that accepts, whose row products are counted.
pub fn word_verdict<L: Ledger>(
    words: &WordView<'_, '_, '_>,
    scratch: &mut WordScratch,
    first: LabelRef<'_>,
    second: LabelRef<'_>,
    steps: &mut Steps<L>,
) -> Verdict
    requires first { AreLabelBits words.now.plain.grammar first }
    requires second { AreLabelBits words.now.plain.grammar second }
    requires room { most_legs words.now.plain.grammar ≤ scratch.old }
    ensures verdict { OfWords words.now first.entry second.entry (λ u x y. IsWordVerdict words.now.plain.grammar u words.now.automaton x y result) }
    ensures room { scratch.new ≡ scratch.old }
    ensures cost { (l : ℕ) → ((k : ℕ) → length (round_at words.now.plain.cycles k) ≤ l) → ((k : ℕ) → length (round_at words.now.lifted.cycles k) ≤ l)
        → steps.new ≤ steps.old + most_products words.now.plain.grammar l + accepting_states words.now.automaton * most_products words.now.lifted.grammar l }
{
    let verdict = decide(
        words.plain,
        &mut scratch.legs,
        first.copied(),
        second.copied(),
        steps,
    );
    match verdict {
        Verdict::Yes => {
            if is_lifted_yes(words, scratch, &first, &second, steps) {
                return Verdict::Yes;
            }
            Verdict::No
        }
        _ => verdict,
    }
}
