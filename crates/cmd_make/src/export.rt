// `export`: SPEC, VIEW and EVENTS, and then what the run shows under the view.
ghost use Rattle.std.specs.Prelude.{◌∷◌, []};
ghost use Rattle.wf_flat.specs.Table.{IsTableOf, events_of};
ghost use Rattle.wf_message.specs.Endings.{end_after};
ghost use Rattle.wf_stage.specs.Promises.{Writes, Obeys};
ghost use Rattle.cmd_make.specs.Does.{ExportsRun, ExportsView, Exports};

use std::alloc::Global;
use wf_export::{ExportFault, write_export};
use wf_flat::PlainRun;
use wf_inputs::{UnderView, events_stage, under_view};
use wf_io::{Shelf, Sink};
use wf_message::Stop;
use wf_safe::SafeView;

/// The names of the files that `export` reads, in this order.
#[derive(Clone, Copy)]
pub struct ExportWords<'w> {
    pub spec: &'w str,
    pub view: &'w str,
    pub events: &'w str,
}

/// Puts what a run shows under a view.
fn put_export<O: Sink>(
    alloc: Global,
    v: &SafeView<'_>,
    run: &PlainRun,
    out: &mut O,
) -> Result<(), Stop>
    requires run { IsTableOf v.now.accepted.grammar.core run.now }
    ensures writes { Writes O.put_bytes O.faults O.at_last []
        (ExportsRun v.now.accepted.grammar.core v.now.view.core (events_of run.now)) out.old out.new (end_after result) }
{
    match write_export(alloc, v.sight(), run, out) {
        Ok(()) => Ok(()),
        Err(ExportFault::WriteFault) => Err(Stop::WriteFault),
        Err(ExportFault::NoMemory) => Err(Stop::NoMemory),
    }
}

impl UnderView for ExportWords<'_> {
    ghost names = { λ w. w.events.now ∷ [] };

    ghost does = { λ w f h u. ExportsView h.core u (f w.events.now) };

    ghost holds_back = { λ w. ⊥ };

    fn obey_under<H: Shelf, O: Sink>(
        &self,
        alloc: Global,
        v: &SafeView<'_>,
        shelf: &mut H,
        out: &mut O,
    ) -> Result<(), Stop> {
        let run = events_stage(alloc, shelf, self.events, v.grammar())?;
        put_export(alloc, v, &run, out)
    }
}

/// Writes what a run shows under a safe view: the instances that are not open, the visible items, and the links.
///
/// Cost: linear in EVENTS and in the text.
pub(crate) fn export<H: Shelf, O: Sink>(
    alloc: Global,
    words: &ExportWords<'_>,
    shelf: &mut H,
    out: &mut O,
) -> Result<(), Stop>
    ensures obeys { Obeys H.files H.readings H.faults H.at_last O.put_bytes O.faults O.at_last
        (words.now.spec.now ∷ words.now.view.now ∷ words.now.events.now ∷ []) []
        (λ f. Exports (f words.now.spec.now) (f words.now.view.now) (f words.now.events.now))
        shelf.old shelf.new out.old out.new (end_after result) }
{
    under_view(alloc, words.spec, words.view, words, shelf, out)
}
