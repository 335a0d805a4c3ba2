// The answer to a query by words, from the entries of a label file.
ghost use Rattle.std.specs.Prelude.{◌≡◌, ◌+◌, ◌*◌, ◌≤◌, ℕ, List, length};
ghost use Rattle.wf_model.specs.View.{View};
ghost use Rattle.label_model.specs.Files.{Entry};
ghost use Rattle.decode_model.specs.Counts.{most_products};
ghost use Rattle.label_file.specs.Stored.{AreHeldOf, IsStoreFor};
ghost use Rattle.wf_recur.specs.Cycles.{round_at};
ghost use Rattle.wf_decode.specs.Reading.{most_legs};
ghost use Rattle.wf_query.specs.Answers.{answer_of};
ghost use Rattle.wf_words.specs.Answers.{IsAnswerByWords};
ghost use Rattle.wf_words.specs.WordViews.{AreOfWordView, accepting_states};

use crate::scratch::WordScratch;
use crate::verdict::word_verdict;
use crate::word_view::WordView;
use bool_mat::Steps;
use label_file::{Guesses, Store};
use std::sync::ledger::Ledger;
use wf_decode::Verdict;
use wf_query::{Answer, Query};

/// The answer that a verdict is.
fn answer_by(verdict: Verdict) -> Answer
    ensures { result ≡ answer_of verdict }
{
    match verdict {
        Verdict::Hidden1 => Answer::Hidden,
        Verdict::Hidden2 => Answer::Hidden,
        Verdict::Clash => Answer::Clash,
        Verdict::Yes => Answer::Yes,
        Verdict::No => Answer::No,
    }
}

/// Answers a query by words, from the labels of the two entries and the labels of the views alone.
///
/// Takes no memory.
///
/// Cost: two look-ups by hashing, but where the entries were guessed, and one verdict by words, whose row products are counted.
pub fn answer_by_words<L: Ledger>(
    store: &Store<'_>,
    guesses: &mut Guesses,
    words: &WordView<'_, '_, '_>,
    scratch: &mut WordScratch,
    query: &Query<'_>,
    steps: &mut Steps<L>,
) -> Answer
    requires store { IsStoreFor words.now.plain.grammar store.now }
    requires room { most_legs words.now.plain.grammar ≤ scratch.old }
    ensures answer { (u : View) (entries : List Entry) → AreOfWordView words.now u → AreHeldOf words.now.plain.grammar entries store.now
        → IsAnswerByWords words.now.plain.grammar u words.now.automaton entries query.now.first.now query.now.second.now result }
    ensures room { scratch.new ≡ scratch.old }
    ensures cost { (l : ℕ) → ((k : ℕ) → length (round_at words.now.plain.cycles k) ≤ l) → ((k : ℕ) → length (round_at words.now.lifted.cycles k) ≤ l)
        → steps.new ≤ steps.old + most_products words.now.plain.grammar l + accepting_states words.now.automaton * most_products words.now.lifted.grammar l }
{
    let (first_label, second_label) = store.get_both_guessed(guesses, query.first, query.second);
    let Some(first) = first_label else {
        return Answer::Unknown;
    };
    let Some(second) = second_label else {
        return Answer::Unknown;
    };
    answer_by(word_verdict(words, scratch, first, second, steps))
}
