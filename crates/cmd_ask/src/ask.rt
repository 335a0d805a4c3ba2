// `ask`: SPEC, VIEW and LABELS, and then the answers to QUERIES from the labels alone.
ghost use Rattle.std.specs.Prelude.{◌∷◌, ◌≡◌, [], List};
ghost use Rattle.label_model.specs.Files.{Entry};
ghost use Rattle.label_file.specs.Stored.{AreHeldOf, IsStoreFor};
ghost use Rattle.wf_query.specs.Answers.{IsAnswerText};
ghost use Rattle.wf_message.specs.Endings.{end_after, NoMemory};
ghost use Rattle.wf_stage.specs.Promises.{Obeys};
ghost use Rattle.wf_asking.specs.Queries.{QueriesStage};
ghost use Rattle.cmd_ask.specs.Does.{AnswersLabels, Asks};

use label_file::Store;
use std::alloc::Global;
use wf_asking::queries_end;
use wf_decode::Scratch;
use wf_inputs::{LABELS, UnderView, store_of, under_view};
use wf_io::{Shelf, Sink};
use wf_message::Stop;
use wf_query::batch;
use wf_safe::SafeView;
use wf_stage::read_file;
use wf_vlabel::ViewLabel;

/// The names of the files that `ask` reads, in this order.
#[derive(Clone, Copy)]
pub struct AskWords<'w> {
    pub spec: &'w str,
    pub view: &'w str,
    pub labels: &'w str,
    pub queries: &'w str,
}

/// Answers the queries of a file from the entries of a label file. All that needs memory comes before the first answer.
fn answer_queries<H: Shelf, O: Sink>(
    alloc: Global,
    v: &SafeView<'_>,
    store: &Store<'_>,
    name: &str,
    shelf: &mut H,
    out: &mut O,
) -> Result<(), Stop>
    requires store { IsStoreFor v.now.accepted.grammar.core store.now }
    ensures obeys { (entries : List Entry) → AreHeldOf v.now.accepted.grammar.core entries store.now →
        Obeys H.files H.readings H.faults H.at_last O.put_bytes O.faults O.at_last (name.now ∷ []) []
        (λ f. QueriesStage (IsAnswerText v.now.accepted.grammar.core v.now.view.core entries) (f name.now))
        shelf.old shelf.new out.old out.new (end_after result) }
    ensures untouched { end_after result ≡ NoMemory → (O.put_bytes out.new ≡ O.put_bytes out.old) × (O.faults out.new ≡ O.faults out.old) }
{
    let Ok(label) = ViewLabel::build(alloc, v) else {
        return Err(Stop::NoMemory);
    };
    let Ok(mut scratch) = Scratch::for_view(alloc, &label) else {
        return Err(Stop::NoMemory);
    };
    queries_end(batch(alloc, shelf, name, store, &label, &mut scratch, out))
}

impl UnderView for AskWords<'_> {
    ghost names = { λ w. w.labels.now ∷ w.queries.now ∷ [] };

    ghost does = { λ w f h u. AnswersLabels h u (f w.labels.now) (f w.queries.now) };

    ghost holds_back = { λ w. Unit {0} };

    fn obey_under<H: Shelf, O: Sink>(
        &self,
        alloc: Global,
        v: &SafeView<'_>,
        shelf: &mut H,
        out: &mut O,
    ) -> Result<(), Stop> {
        let bytes = read_file(alloc, shelf, self.labels, LABELS)?;
        let key = shelf.hash_key();
        let store = store_of(alloc, key, v.accepted(), &bytes)?;
        answer_queries(alloc, v, &store, self.queries, shelf, out)
    }
}

/// Answers the queries on the items of a label file, from the labels of the two items and a safe view alone.
///
/// Want of memory comes before the first answer is put.
pub fn ask<H: Shelf, O: Sink>(
    alloc: Global,
    words: &AskWords<'_>,
    shelf: &mut H,
    out: &mut O,
) -> Result<(), Stop>
    ensures obeys { Obeys H.files H.readings H.faults H.at_last O.put_bytes O.faults O.at_last
        (words.now.spec.now ∷ words.now.view.now ∷ words.now.labels.now ∷ words.now.queries.now ∷ []) []
        (λ f. Asks (f words.now.spec.now) (f words.now.view.now) (f words.now.labels.now) (f words.now.queries.now))
        shelf.old shelf.new out.old out.new (end_after result) }
    ensures untouched { end_after result ≡ NoMemory → (O.put_bytes out.new ≡ O.put_bytes out.old) × (O.faults out.new ≡ O.faults out.old) }
{
    under_view(alloc, words.spec, words.view, words, shelf, out)
}
