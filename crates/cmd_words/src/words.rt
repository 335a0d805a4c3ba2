// `words`: SPEC, VIEW, AUTO and LABELS, and then the answers to QUERIES by the words of paths, from the labels alone.
ghost use Rattle.std.specs.Prelude.{◌≡◌, ◌∷◌, []};
ghost use Rattle.words_model.specs.Laws.{Fits};
ghost use Rattle.words_model.specs.Lifting.{lift};
ghost use Rattle.wf_message.specs.Endings.{end_after, NoMemory};
ghost use Rattle.wf_stage.specs.Promises.{Obeys};
ghost use Rattle.cmd_words.specs.Words.{files_of};
ghost use Rattle.cmd_words.specs.Does.{AnswersLifted, AnswersAuto, Does, meant};

use crate::auto_input::{AUTO, automaton_of};
use crate::labels::answer_labels;
use crate::lifted::{lifted_grammar, lifted_view};
use std::alloc::Global;
use std::mem::drop;
use wf_accept::Accepted;
use wf_automaton::Automaton;
use wf_inputs::{UnderView, under_view};
use wf_io::{Shelf, Sink};
use wf_message::Stop;
use wf_safe::SafeView;
use wf_stage::read_file;

/// The names of the files that `words` reads, in this order.
#[derive(Clone, Copy)]
pub struct WordsFiles<'w> {
    pub spec: &'w str,
    pub view: &'w str,
    pub automaton: &'w str,
    pub labels: &'w str,
    pub queries: &'w str,
}

/// Takes LABELS and QUERIES under a view and an automaton, which AUTO told, from the grammar that was lifted to its states.
fn answer_lifted<H: Shelf, O: Sink>(
    alloc: Global,
    v: &SafeView<'_>,
    automaton: &Automaton,
    grammar: &Accepted,
    files: &WordsFiles<'_>,
    shelf: &mut H,
    out: &mut O,
) -> Result<(), Stop>
    requires fits { Fits v.now.accepted.grammar.core automaton.now }
    requires grammar { grammar.now.grammar.core ≡ lift v.now.accepted.grammar.core automaton.now.states }
    ensures obeys { Obeys H.files H.readings H.faults H.at_last O.put_bytes O.faults O.at_last (files.now.labels.now ∷ files.now.queries.now ∷ []) []
        (λ f. AnswersLifted v.now.accepted.grammar v.now.view.core automaton.now (f files.now.labels.now) (f files.now.queries.now))
        shelf.old shelf.new out.old out.new (end_after result) }
    ensures untouched { end_after result ≡ NoMemory → (O.put_bytes out.new ≡ O.put_bytes out.old) × (O.faults out.new ≡ O.faults out.old) }
{
    let lifted = lifted_view(alloc, v, automaton, grammar)?;
    let ended = answer_labels(
        alloc,
        v,
        automaton,
        &lifted,
        files.labels,
        files.queries,
        shelf,
        out,
    );
    drop(lifted);
    ended
}

/// Takes LABELS and QUERIES under a view and an automaton, which AUTO told.
fn answer_read<H: Shelf, O: Sink>(
    alloc: Global,
    v: &SafeView<'_>,
    automaton: &Automaton,
    files: &WordsFiles<'_>,
    shelf: &mut H,
    out: &mut O,
) -> Result<(), Stop>
    requires fits { Fits v.now.accepted.grammar.core automaton.now }
    ensures obeys { Obeys H.files H.readings H.faults H.at_last O.put_bytes O.faults O.at_last (files.now.labels.now ∷ files.now.queries.now ∷ []) []
        (λ f. AnswersLifted v.now.accepted.grammar v.now.view.core automaton.now (f files.now.labels.now) (f files.now.queries.now))
        shelf.old shelf.new out.old out.new (end_after result) }
    ensures untouched { end_after result ≡ NoMemory → (O.put_bytes out.new ≡ O.put_bytes out.old) × (O.faults out.new ≡ O.faults out.old) }
{
    let grammar = lifted_grammar(alloc, v, automaton)?;
    let ended = answer_lifted(alloc, v, automaton, &grammar, files, shelf, out);
    drop(grammar);
    ended
}

impl UnderView for WordsFiles<'_> {
    ghost names = { λ w. w.automaton.now ∷ w.labels.now ∷ w.queries.now ∷ [] };

    ghost does = { λ w f h u. AnswersAuto h u (f w.automaton.now) (f w.labels.now) (f w.queries.now) };

    ghost holds_back = { λ w. Unit {0} };

    /// AUTO is refused with the first that there is of: TooLong; the fault of the automaton; and Unsafe where the lifted view is not safe.
    fn obey_under<H: Shelf, O: Sink>(
        &self,
        alloc: Global,
        v: &SafeView<'_>,
        shelf: &mut H,
        out: &mut O,
    ) -> Result<(), Stop> {
        let bytes = read_file(alloc, shelf, self.automaton, AUTO)?;
        let automaton = automaton_of(alloc, v.grammar(), &bytes)?;
        let ended = answer_read(alloc, v, &automaton, self, shelf, out);
        drop(automaton);
        drop(bytes);
        ended
    }
}

/// Answers the queries on the items of a label file: whether a path leads from the first item to the second that passes modules in an order that an automaton accepts. It answers from the labels of the two items, a safe view and the lifted view alone, so that the answer holds however a run that has both is finished.
///
/// Want of memory comes before the first answer is put: the labels of the two views and the room for verdicts are made before it, and an answer takes no memory.
pub fn obey<H: Shelf, O: Sink>(
    alloc: Global,
    files: &WordsFiles<'_>,
    shelf: &mut H,
    out: &mut O,
) -> Result<(), Stop>
    ensures obeys { Obeys H.files H.readings H.faults H.at_last O.put_bytes O.faults O.at_last (files_of (meant files.now)) []
        (λ f. Does f (meant files.now)) shelf.old shelf.new out.old out.new (end_after result) }
    ensures untouched { end_after result ≡ NoMemory → (O.put_bytes out.new ≡ O.put_bytes out.old) × (O.faults out.new ≡ O.faults out.old) }
{
    under_view(alloc, files.spec, files.view, files, shelf, out)
}
