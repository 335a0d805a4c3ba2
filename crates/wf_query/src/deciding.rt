// The answer to a query from the entries of a label file.
ghost use Rattle.std.specs.Prelude.{◌≡◌, ◌+◌, ◌≤◌, ℕ, List, length};
ghost use Rattle.wf_model.specs.View.{View};
ghost use Rattle.label_model.specs.Files.{Entry};
ghost use Rattle.wf_recur.specs.Cycles.{round_at};
ghost use Rattle.decode_model.specs.Counts.{most_products};
ghost use Rattle.label_file.specs.Stored.{AreHeldOf, IsStoreFor};
ghost use Rattle.wf_vlabel.specs.Seen.{IsLabelOfView};
ghost use Rattle.wf_decode.specs.Reading.{most_legs};
ghost use Rattle.wf_query.specs.Answers.{IsAnswerOfLabels};

use crate::answers::{Answer, told};
use crate::query::Query;
use bool_mat::Steps;
use label_file::{Guesses, Store};
use std::sync::ledger::Ledger;
use wf_decode::{Scratch, decide};
use wf_vlabel::ViewLabel;

/// Answers a query as `answer` does. Where the entries of its names were guessed, nothing is looked up.
pub(crate) fn answer_guessed<L: Ledger>(
    store: &Store<'_>,
    guesses: &mut Guesses,
    vl: &ViewLabel<'_>,
    scratch: &mut Scratch,
    query: &Query<'_>,
    steps: &mut Steps<L>,
) -> Answer
    requires store { IsStoreFor vl.now.grammar store.now }
    requires room { most_legs vl.now.grammar ≤ scratch.old }
    ensures answer { (u : View) (entries : List Entry) → IsLabelOfView vl.now u → AreHeldOf vl.now.grammar entries store.now
        → IsAnswerOfLabels vl.now.grammar u entries query.now.first.now query.now.second.now result }
    ensures room { scratch.new ≡ scratch.old }
    ensures cost { (l : ℕ) → ((k : ℕ) → length (round_at vl.now.cycles k) ≤ l) → steps.new ≤ steps.old + most_products vl.now.grammar l }
{
    let (first_label, second_label) = store.get_both_guessed(guesses, query.first, query.second);
    let Some(first) = first_label else {
        return Answer::Unknown;
    };
    let Some(second) = second_label else {
        return Answer::Unknown;
    };
    told(decide(vl, scratch, first, second, steps))
}

/// Answers a query from the labels of the two entries and the label of a view alone.
///
/// Cost: two look-ups by hashing, at one time, and one decision, whose row products are counted. Takes no memory.
pub fn answer<L: Ledger>(
    store: &Store<'_>,
    vl: &ViewLabel<'_>,
    scratch: &mut Scratch,
    query: &Query<'_>,
    steps: &mut Steps<L>,
) -> Answer
    requires store { IsStoreFor vl.now.grammar store.now }
    requires room { most_legs vl.now.grammar ≤ scratch.old }
    ensures answer { (u : View) (entries : List Entry) → IsLabelOfView vl.now u → AreHeldOf vl.now.grammar entries store.now
        → IsAnswerOfLabels vl.now.grammar u entries query.now.first.now query.now.second.now result }
    ensures room { scratch.new ≡ scratch.old }
    ensures cost { (l : ℕ) → ((k : ℕ) → length (round_at vl.now.cycles k) ≤ l) → steps.new ≤ steps.old + most_products vl.now.grammar l }
{
    let mut none = Guesses::new();
    answer_guessed(store, &mut none, vl, scratch, query, steps)
}
