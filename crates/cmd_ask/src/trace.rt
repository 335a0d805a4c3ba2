// `trace`: SPEC, VIEW and EVENTS, and then the answers to QUERIES from the run.
ghost use Rattle.std.specs.Prelude.{◌∷◌, ◌≡◌, [], IfOk};
ghost use Rattle.wf_flat.specs.Table.{IsTableOf, events_of};
ghost use Rattle.wf_message.specs.Endings.{end_after};
ghost use Rattle.wf_stage.specs.Promises.{Obeys};
ghost use Rattle.cmd_ask.specs.Answers.{IsAnswerOfRun};
ghost use Rattle.cmd_ask.specs.Told.{IsToldBy};
ghost use Rattle.wf_asking.specs.Queries.{QueriesStage};
ghost use Rattle.cmd_ask.specs.Does.{AnswersRun, Traces};

use crate::prepared::Prepared;
use std::alloc::{AllocError, Global};
use wf_asking::queries_stage;
use wf_flat::{Flat, PlainRun};
use wf_inputs::{UnderView, events_stage, under_view};
use wf_io::{Shelf, Sink};
use wf_message::Stop;
use wf_safe::SafeView;

/// The names of the files that `trace` reads, in this order.
#[derive(Clone, Copy)]
pub struct TraceWords<'w> {
    pub spec: &'w str,
    pub view: &'w str,
    pub events: &'w str,
    pub queries: &'w str,
}

/// A run with its flat graph, as queries need it. Fails only for want of memory.
fn prepare<'p>(
    alloc: Global,
    v: &'p SafeView<'p>,
    run: &'p PlainRun,
) -> Result<Prepared<'p>, AllocError>
    requires run { IsTableOf v.now.accepted.grammar.core run.now }
    ensures viewed { IfOk result (λ p. p.viewed ≡ v.now) }
    ensures run { IfOk result (λ p. p.run ≡ run.now) }
{
    let flat = Flat::of(alloc, v.grammar(), run, v.view().marks(), v.full().deps())?;
    Ok(Prepared {
        viewed: v,
        run,
        flat,
    })
}

/// Answers the queries of a file on a run that is prepared.
fn answer_prepared<H: Shelf, O: Sink>(
    alloc: Global,
    p: &mut Prepared<'_>,
    name: &str,
    shelf: &mut H,
    out: &mut O,
) -> Result<(), Stop>
    ensures obeys { Obeys H.files H.readings H.faults H.at_last O.put_bytes O.faults O.at_last (name.now ∷ []) []
        (λ f. QueriesStage (IsToldBy p.old) (f name.now))
        shelf.old shelf.new out.old out.new (end_after result) }
{
    // A query on a run of a proper grammar has one answer.
    let _run = p.run;
    queries_stage(alloc, p, shelf, name, out)
}

/// Answers the queries of a file on a run, under a view.
fn answer_run<H: Shelf, O: Sink>(
    alloc: Global,
    v: &SafeView<'_>,
    run: &PlainRun,
    name: &str,
    shelf: &mut H,
    out: &mut O,
) -> Result<(), Stop>
    requires run { IsTableOf v.now.accepted.grammar.core run.now }
    ensures obeys { Obeys H.files H.readings H.faults H.at_last O.put_bytes O.faults O.at_last (name.now ∷ []) []
        (λ f. QueriesStage (IsAnswerOfRun v.now.accepted.grammar.core v.now.view.core (events_of run.now)) (f name.now))
        shelf.old shelf.new out.old out.new (end_after result) }
{
    let Ok(mut p) = prepare(alloc, v, run) else {
        return Err(Stop::NoMemory);
    };
    answer_prepared(alloc, &mut p, name, shelf, out)
}

impl UnderView for TraceWords<'_> {
    ghost names = { λ w. w.events.now ∷ w.queries.now ∷ [] };

    ghost does = { λ w f h u. AnswersRun h.core u (f w.events.now) (f w.queries.now) };

    ghost holds_back = { λ w. ⊥ };

    fn obey_under<H: Shelf, O: Sink>(
        &self,
        alloc: Global,
        v: &SafeView<'_>,
        shelf: &mut H,
        out: &mut O,
    ) -> Result<(), Stop> {
        let run = events_stage(alloc, shelf, self.events, v.grammar())?;
        answer_run(alloc, v, &run, self.queries, shelf, out)
    }
}

/// Answers the queries on a run of a grammar, however it is finished under a safe view, by the search in its graph: pending instances have the pairs that each of their expansions joins.
pub fn trace<H: Shelf, O: Sink>(
    alloc: Global,
    words: &TraceWords<'_>,
    shelf: &mut H,
    out: &mut O,
) -> Result<(), Stop>
    ensures obeys { Obeys H.files H.readings H.faults H.at_last O.put_bytes O.faults O.at_last
        (words.now.spec.now ∷ words.now.view.now ∷ words.now.events.now ∷ words.now.queries.now ∷ []) []
        (λ f. Traces (f words.now.spec.now) (f words.now.view.now) (f words.now.events.now) (f words.now.queries.now))
        shelf.old shelf.new out.old out.new (end_after result) }
{
    under_view(alloc, words.spec, words.view, words, shelf, out)
}
