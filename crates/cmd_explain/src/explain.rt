// `explain`: SPEC, VIEW and EVENTS, and then why one item rests on another.
ghost use Rattle.std.specs.Prelude.{◌∷◌, []};
ghost use Rattle.wf_flat.specs.Table.{IsTableOf, events_of};
ghost use Rattle.wf_message.specs.Endings.{end_after};
ghost use Rattle.wf_stage.specs.Promises.{Obeys, Writes};
ghost use Rattle.cmd_explain.specs.Reasons.{IsReason};
ghost use Rattle.cmd_explain.specs.Does.{ExplainsRun, Explains};

use crate::reason::put_reason;
use std::alloc::Global;
use std::mem::drop;
use wf_chain::ViewedRun;
use wf_flat::PlainRun;
use wf_inputs::{UnderView, events_stage, under_view};
use wf_io::{Shelf, Sink};
use wf_message::Stop;
use wf_safe::SafeView;

/// The names of the files that `explain` reads, in this order, and those of two items.
#[derive(Clone, Copy)]
pub struct ExplainWords<'w> {
    pub spec: &'w str,
    pub view: &'w str,
    pub events: &'w str,
    pub first: &'w str,
    pub second: &'w str,
}

/// Puts why one item of a run rests on another, under a view.
fn explain_run<O: Sink>(
    alloc: Global,
    v: &SafeView<'_>,
    run: &PlainRun,
    words: &ExplainWords<'_>,
    out: &mut O,
) -> Result<(), Stop>
    requires run { IsTableOf v.now.accepted.grammar.core run.now }
    ensures writes { Writes O.put_bytes O.faults O.at_last []
        (IsReason v.now.accepted.grammar.core v.now.view.core (events_of run.now) words.now.first.now words.now.second.now)
        out.old out.new (end_after result) }
{
    let Ok(viewed) = ViewedRun::of(alloc, v, run) else {
        return Err(Stop::NoMemory);
    };
    let ended = put_reason(
        alloc,
        &viewed,
        words.first.as_bytes(),
        words.second.as_bytes(),
        out,
    );
    drop(viewed);
    ended
}

impl UnderView for ExplainWords<'_> {
    ghost names = { λ w. w.events.now ∷ [] };

    ghost does = { λ w f h u. ExplainsRun h.core u (f w.events.now) w.first.now w.second.now };

    ghost holds_back = { λ w. ⊥ };

    fn obey_under<H: Shelf, O: Sink>(
        &self,
        alloc: Global,
        v: &SafeView<'_>,
        shelf: &mut H,
        out: &mut O,
    ) -> Result<(), Stop> {
        let run = events_stage(alloc, shelf, self.events, v.grammar())?;
        let ended = explain_run(alloc, v, &run, self, out);
        drop(run);
        ended
    }
}

/// Tells why one item of a run rests on another, however the run is finished: the first of the shortest chains of items that the view shows, each of which rests on the one before through one instance.
///
/// Cost: linear in EVENTS and in the chain.
pub(crate) fn explain<H: Shelf, O: Sink>(
    alloc: Global,
    words: &ExplainWords<'_>,
    shelf: &mut H,
    out: &mut O,
) -> Result<(), Stop>
    ensures obeys { Obeys H.files H.readings H.faults H.at_last O.put_bytes O.faults O.at_last
        (words.now.spec.now ∷ words.now.view.now ∷ words.now.events.now ∷ []) []
        (λ f. Explains (f words.now.spec.now) (f words.now.view.now) (f words.now.events.now) words.now.first.now words.now.second.now)
        shelf.old shelf.new out.old out.new (end_after result) }
{
    under_view(alloc, words.spec, words.view, words, shelf, out)
}
