// `verify`: SPEC, VIEW and EVENTS, and then what is said of the lines of CHAIN.
ghost use Rattle.std.specs.Prelude.{◌∷◌, []};
ghost use Rattle.wf_flat.specs.Table.{IsTableOf, events_of};
ghost use Rattle.wf_io.specs.Lines.{lines_in};
ghost use Rattle.wf_message.specs.Endings.{end_after};
ghost use Rattle.wf_stage.specs.Promises.{Obeys};
ghost use Rattle.wf_reason.specs.HandedIn.{ChainStage};
ghost use Rattle.wf_reason.specs.Checked.{IsSaidOf};
ghost use Rattle.cmd_explain.specs.Verifying.{VerifiesRun, Verifies};

use std::alloc::Global;
use std::mem::drop;
use wf_chain::ViewedRun;
use wf_flat::PlainRun;
use wf_inputs::{UnderView, events_stage, under_view};
use wf_io::{Shelf, Sink};
use wf_message::Stop;
use wf_reason::verify_chain;
use wf_safe::SafeView;

/// The names of the files that `verify` reads, in this order.
#[derive(Clone, Copy)]
pub struct VerifyWords<'w> {
    pub spec: &'w str,
    pub view: &'w str,
    pub events: &'w str,
    pub chain: &'w str,
}

/// Takes CHAIN of a run under a view.
fn verify_run<H: Shelf, O: Sink>(
    alloc: Global,
    v: &SafeView<'_>,
    run: &PlainRun,
    name: &str,
    shelf: &mut H,
    out: &mut O,
) -> Result<(), Stop>
    requires run { IsTableOf v.now.accepted.grammar.core run.now }
    ensures obeys { Obeys H.files H.readings H.faults H.at_last O.put_bytes O.faults O.at_last (name.now ∷ []) []
        (λ f. ChainStage (lines_in (f name.now)) (IsSaidOf v.now.accepted.grammar.core v.now.view.core (events_of run.now)))
        shelf.old shelf.new out.old out.new (end_after result) }
{
    let Ok(viewed) = ViewedRun::of(alloc, v, run) else {
        return Err(Stop::NoMemory);
    };
    let ended = verify_chain(alloc, &viewed, shelf, name, out);
    drop(viewed);
    ended
}

impl UnderView for VerifyWords<'_> {
    ghost names = { λ w. w.events.now ∷ w.chain.now ∷ [] };

    ghost does = { λ w f h u. VerifiesRun h.core u (f w.events.now) (f w.chain.now) };

    ghost holds_back = { λ w. ⊥ };

    fn obey_under<H: Shelf, O: Sink>(
        &self,
        alloc: Global,
        v: &SafeView<'_>,
        shelf: &mut H,
        out: &mut O,
    ) -> Result<(), Stop> {
        let run = events_stage(alloc, shelf, self.events, v.grammar())?;
        let ended = verify_run(alloc, v, &run, self.chain, shelf, out);
        drop(run);
        ended
    }
}

/// Says of the lines of a file whether they are a chain of items of a run, as `explain` writes it: `yes`, or `no` with the number of the first wrong line. It searches nothing.
///
/// A refusal, also of a later line of CHAIN, comes before any answer.
///
/// Cost: linear in the files; for each line of CHAIN a look-up by hashing, and one step for each entry and exit on the way.
pub(crate) fn verify<H: Shelf, O: Sink>(
    alloc: Global,
    words: &VerifyWords<'_>,
    shelf: &mut H,
    out: &mut O,
) -> Result<(), Stop>
    ensures obeys { Obeys H.files H.readings H.faults H.at_last O.put_bytes O.faults O.at_last
        (words.now.spec.now ∷ words.now.view.now ∷ words.now.events.now ∷ words.now.chain.now ∷ []) []
        (λ f. Verifies (f words.now.spec.now) (f words.now.view.now) (f words.now.events.now) (f words.now.chain.now))
        shelf.old shelf.new out.old out.new (end_after result) }
{
    under_view(alloc, words.spec, words.view, words, shelf, out)
}
