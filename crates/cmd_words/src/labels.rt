// LABELS and QUERIES under a view and a lifted view.
ghost use Rattle.std.specs.Prelude.{◌≡◌, ◌∷◌, List, []};
ghost use Rattle.wf_model.specs.View.{View};
ghost use Rattle.label_model.specs.Files.{Entry};
ghost use Rattle.words_model.specs.Laws.{Fits};
ghost use Rattle.label_file.specs.Stored.{AreHeldOf, IsStoreFor};
ghost use Rattle.wf_vlabel.specs.Seen.{IsLabelOfView};
ghost use Rattle.wf_words.specs.Answers.{IsWordByWords};
ghost use Rattle.wf_words.specs.WordViews.{IsWordView, AreOfWordView};
ghost use Rattle.wf_message.specs.Endings.{end_after, NoMemory};
ghost use Rattle.wf_stage.specs.Promises.{Obeys};
ghost use Rattle.wf_asking.specs.Queries.{QueriesStage};
ghost use Rattle.cmd_words.specs.LiftedViews.{IsLiftedView};
ghost use Rattle.cmd_words.specs.Does.{AnswersLabels};

use crate::prepared::Prepared;
use label_file::{Guesses, Store};
use std::alloc::Global;
use std::mem::drop;
use wf_asking::queries_stage;
use wf_automaton::Automaton;
use wf_inputs::{LABELS, store_of};
use wf_io::{Shelf, Sink};
use wf_message::Stop;
use wf_safe::SafeView;
use wf_stage::read_file;
use wf_vlabel::ViewLabel;
use wf_words::{WordScratch, WordView};

/// Answers the queries of a file from the entries of a label file, under the labels of a view and of the lifted view. The room for verdicts is made before the first answer.
fn answer_under<H: Shelf, O: Sink>(
    alloc: Global,
    automaton: &Automaton,
    plain: &ViewLabel<'_>,
    raised: &ViewLabel<'_>,
    store: &Store<'_>,
    name: &str,
    shelf: &mut H,
    out: &mut O,
) -> Result<(), Stop>
    requires words { IsWordView (record { automaton = automaton.now; plain = plain.now; lifted = raised.now }) }
    requires store { IsStoreFor plain.now.grammar store.now }
    ensures obeys { (u : View) (entries : List Entry) → AreOfWordView (record { automaton = automaton.now; plain = plain.now; lifted = raised.now }) u →
        AreHeldOf plain.now.grammar entries store.now →
        Obeys H.files H.readings H.faults H.at_last O.put_bytes O.faults O.at_last (name.now ∷ []) []
        (λ f. QueriesStage (IsWordByWords plain.now.grammar u automaton.now entries) (f name.now))
        shelf.old shelf.new out.old out.new (end_after result) }
    ensures untouched { end_after result ≡ NoMemory → (O.put_bytes out.new ≡ O.put_bytes out.old) × (O.faults out.new ≡ O.faults out.old) }
{
    let Ok(scratch) = WordScratch::for_view(alloc, plain) else {
        return Err(Stop::NoMemory);
    };
    let words = WordView::new(automaton, plain, raised);
    let mut prepared = Prepared {
        store,
        words: &words,
        scratch,
        guesses: Guesses::new(),
    };
    let ended = queries_stage(alloc, &mut prepared, shelf, name, out);
    drop(prepared);
    ended
}

/// Answers the queries of a file from the entries of a label file, under the label of a view. The label of the lifted view is made here.
fn answer_over<H: Shelf, O: Sink>(
    alloc: Global,
    v: &SafeView<'_>,
    automaton: &Automaton,
    plain: &ViewLabel<'_>,
    lifted: &SafeView<'_>,
    store: &Store<'_>,
    name: &str,
    shelf: &mut H,
    out: &mut O,
) -> Result<(), Stop>
    requires fits { Fits v.now.accepted.grammar.core automaton.now }
    requires label { IsLabelOfView plain.now v.now.view.core }
    requires grammar { plain.now.grammar ≡ v.now.accepted.grammar.core }
    requires lifted { IsLiftedView v.now.accepted.grammar.core v.now.view.core automaton.now lifted.now }
    requires store { IsStoreFor v.now.accepted.grammar.core store.now }
    ensures obeys { (entries : List Entry) → AreHeldOf v.now.accepted.grammar.core entries store.now →
        Obeys H.files H.readings H.faults H.at_last O.put_bytes O.faults O.at_last (name.now ∷ []) []
        (λ f. QueriesStage (IsWordByWords v.now.accepted.grammar.core v.now.view.core automaton.now entries) (f name.now))
        shelf.old shelf.new out.old out.new (end_after result) }
    ensures untouched { end_after result ≡ NoMemory → (O.put_bytes out.new ≡ O.put_bytes out.old) × (O.faults out.new ≡ O.faults out.old) }
{
    // The laws of words speak of grammars that are accepted.
    let _accepted = v.grammar();
    let Ok(raised) = ViewLabel::build(alloc, lifted) else {
        return Err(Stop::NoMemory);
    };
    let ended = answer_under(alloc, automaton, plain, &raised, store, name, shelf, out);
    drop(raised);
    ended
}

/// Answers the queries of a file from the entries of a label file. All that needs memory comes before the first answer: the labels of both views, and the room for verdicts.
fn answer_queries<H: Shelf, O: Sink>(
    alloc: Global,
    v: &SafeView<'_>,
    automaton: &Automaton,
    lifted: &SafeView<'_>,
    store: &Store<'_>,
    name: &str,
    shelf: &mut H,
    out: &mut O,
) -> Result<(), Stop>
    requires fits { Fits v.now.accepted.grammar.core automaton.now }
    requires lifted { IsLiftedView v.now.accepted.grammar.core v.now.view.core automaton.now lifted.now }
    requires store { IsStoreFor v.now.accepted.grammar.core store.now }
    ensures obeys { (entries : List Entry) → AreHeldOf v.now.accepted.grammar.core entries store.now →
        Obeys H.files H.readings H.faults H.at_last O.put_bytes O.faults O.at_last (name.now ∷ []) []
        (λ f. QueriesStage (IsWordByWords v.now.accepted.grammar.core v.now.view.core automaton.now entries) (f name.now))
        shelf.old shelf.new out.old out.new (end_after result) }
    ensures untouched { end_after result ≡ NoMemory → (O.put_bytes out.new ≡ O.put_bytes out.old) × (O.faults out.new ≡ O.faults out.old) }
{
    let Ok(plain) = ViewLabel::build(alloc, v) else {
        return Err(Stop::NoMemory);
    };
    let ended = answer_over(alloc, v, automaton, &plain, lifted, store, name, shelf, out);
    drop(plain);
    ended
}

/// Takes LABELS and QUERIES under a view and the lifted view of an automaton.
pub(crate) fn answer_labels<H: Shelf, O: Sink>(
    alloc: Global,
    v: &SafeView<'_>,
    automaton: &Automaton,
    lifted: &SafeView<'_>,
    labels: &str,
    queries: &str,
    shelf: &mut H,
    out: &mut O,
) -> Result<(), Stop>
    requires fits { Fits v.now.accepted.grammar.core automaton.now }
    requires lifted { IsLiftedView v.now.accepted.grammar.core v.now.view.core automaton.now lifted.now }
    ensures obeys { Obeys H.files H.readings H.faults H.at_last O.put_bytes O.faults O.at_last (labels.now ∷ queries.now ∷ []) []
        (λ f. AnswersLabels v.now.accepted.grammar v.now.view.core automaton.now (f labels.now) (f queries.now))
        shelf.old shelf.new out.old out.new (end_after result) }
    ensures untouched { end_after result ≡ NoMemory → (O.put_bytes out.new ≡ O.put_bytes out.old) × (O.faults out.new ≡ O.faults out.old) }
{
    let bytes = read_file(alloc, shelf, labels, LABELS)?;
    let key = shelf.hash_key();
    let store = store_of(alloc, key, v.accepted(), &bytes)?;
    let ended = answer_queries(alloc, v, automaton, lifted, &store, queries, shelf, out);
    drop(store);
    drop(bytes);
    ended
}
