// `drill`: SPEC and VIEW, and then a generated run is labelled, and drawn pairs of its items are decided under the view.
ghost use Rattle.std.specs.Prelude.{◌∷◌, [], IfOk};
ghost use Rattle.wf_gen.specs.Turns.{generated};
ghost use Rattle.wf_message.specs.Endings.{end_after};
ghost use Rattle.wf_stage.specs.Promises.{Obeys};
ghost use Rattle.wf_inputs.specs.Inputs.{instance_most};
ghost use Rattle.cmd_make.specs.DrillText.{IsSummary, IsDrilled};
ghost use Rattle.cmd_make.specs.Does.{Drills};

use crate::labelling::label_run;
use crate::summary::summary_text;
use crate::verdicts::verdicts_of;
use std::alloc::{AllocError, Global};
use wf_gen::Gen;
use wf_inputs::{INSTANCES, UnderView, under_view};
use wf_io::{Shelf, Sink};
use wf_message::Stop;
use wf_safe::SafeView;
use wf_stage::put_text;

/// The names of the files that `drill` reads, in this order, the number of expansions at most, and the seed.
#[derive(Clone, Copy)]
pub struct DrillWords<'w> {
    pub spec: &'w str,
    pub view: &'w str,
    pub n: u32,
    pub seed: u64,
}

/// The summary of the run of at most `n` expansions that a seed gives, under a view. Fails only for want of memory.
fn summary_of(alloc: Global, v: &SafeView<'_>, n: u32, seed: u64) -> Result<Vec<u8>, AllocError>
    ensures { IfOk result (λ text. IsSummary v.now.accepted.grammar.core v.now.view.core (generated v.now.accepted.grammar.core n seed instance_most) text.items) }
{
    let linear = v.linear();
    let mut generator = Gen::new(alloc, linear, n, seed, INSTANCES);
    let drawn = label_run(alloc, linear, &mut generator)?;
    let verdicts = verdicts_of(alloc, v, &drawn.labels)?;
    summary_text(
        alloc,
        drawn.instances,
        drawn.items,
        drawn.longest,
        &verdicts,
    )
}

impl UnderView for DrillWords<'_> {
    ghost names = { λ w. [] };

    ghost does = { λ w f h u. IsDrilled h.core u w.n w.seed };

    ghost holds_back = { λ w. ⊥ };

    fn obey_under<H: Shelf, O: Sink>(
        &self,
        alloc: Global,
        v: &SafeView<'_>,
        shelf: &mut H,
        out: &mut O,
    ) -> Result<(), Stop> {
        let Ok(text) = summary_of(alloc, v, self.n, self.seed) else {
            return Err(Stop::NoMemory);
        };
        put_text(out, &text)
    }
}

/// Writes how the run of at most `n` expansions that a seed gives is labelled, and how drawn pairs of its items are answered under a safe view: the numbers of its instances and items, the bits of its longest label, and how many verdicts of each kind there are.
///
/// Nothing is put before all of it is known. Cost: linear in the run. Takes memory for the run, and for the labels of the items that are drawn.
pub(crate) fn drill<H: Shelf, O: Sink>(
    alloc: Global,
    words: &DrillWords<'_>,
    shelf: &mut H,
    out: &mut O,
) -> Result<(), Stop>
    ensures obeys { Obeys H.files H.readings H.faults H.at_last O.put_bytes O.faults O.at_last (words.now.spec.now ∷ words.now.view.now ∷ []) []
        (λ f. Drills (f words.now.spec.now) (f words.now.view.now) words.now.n words.now.seed)
        shelf.old shelf.new out.old out.new (end_after result) }
{
    under_view(alloc, words.spec, words.view, words, shelf, out)
}
