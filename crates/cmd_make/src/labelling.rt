// A generated run, of which the items are labelled event by event.
ghost use Rattle.std.specs.Prelude.{◌≡◌, ◌++◌, ◌∷◌, [], true, List, None, length, map, IfOk, OnOk};
ghost use Rattle.wf_model.specs.declared.event.Event.{Event};
ghost use Rattle.wf_model.specs.Faults.{fault_of};
ghost use Rattle.wf_model.specs.Run.{made, IsAccepted};
ghost use Rattle.label_model.specs.RunLabels.{labelled, labelled_by};
ghost use Rattle.wf_run.specs.Runs.{IsRunOf};
ghost use Rattle.wf_labeller.specs.Groups.{bits_of_items};
ghost use Rattle.wf_inputs.specs.Inputs.{instance_most};
ghost use Rattle.cmd_make.specs.HeldLabels.{IsDrawnOf};

use crate::held::{PairLabels, labels_of};
use crate::pairs::{draw_pairs, pair_count};
use bumpalo::Bump;
use std::alloc::{AllocError, Global};
use wf_gen::Gen;
use wf_inputs::INSTANCES;
use wf_labeller::LabelledRun;
use wf_recur::Linear;
use wf_run::Run;
use wf_spec::{Event, RunFault};

/// What the summary tells of a labelled run: how many instances and items it has, and how many bits the longest label; and the labels of the items of the pairs that are drawn.
#[derive(Drop)]
pub(crate) struct Drawn {
    pub(crate) instances: u32,
    pub(crate) items: usize,
    pub(crate) longest: u32,
    pub(crate) labels: PairLabels,
}

/// Takes an event that extends the run, and labels the items that it makes. The only error is that memory is refused.
fn label_event(run: &mut LabelledRun<'_>, event: &Event) -> Result<(), AllocError>
    requires extends { (before : List Event) × IsRunOf run.old.run before
        × (fault_of run.old.run.grammar.core run.old.run.most before event.now ≡ None) }
    ensures taken { OnOk result ((before : List Event) → IsRunOf run.old.run before → IsRunOf run.new.run (before ++ event.now ∷ [])) }
    ensures labels { OnOk result ((before : List Event) → IsRunOf run.old.run before
        → run.new.labels ≡ run.old.labels ++ bits_of_items (labelled_by run.old.run.grammar.core (before ++ event.now ∷ []) event.now)) }
    ensures grammar { OnOk result (run.new.run.grammar ≡ run.old.run.grammar) }
    ensures most { OnOk result (run.new.run.most ≡ run.old.run.most) }
{
    match run.take(event) {
        Ok(()) => Ok(()),
        Err(RunFault::NoMemory) => Err(AllocError),
        Err(_) => unreachable!(),
    }
}

/// Takes the events of a generator one after the other, each of which extends the run, and labels the items that they make. The only error is that memory is refused.
fn label_events(generator: &mut Gen<'_>, run: &mut LabelledRun<'_>) -> Result<(), AllocError>
    requires none { IsRunOf run.old.run [] }
    requires unlabelled { run.old.labels ≡ [] }
    requires accepted { IsAccepted run.old.run.grammar.core run.old.run.most generator.old.events }
    ensures run { OnOk result (IsRunOf run.new.run generator.old.events) }
    ensures grammar { OnOk result (run.new.run.grammar ≡ run.old.run.grammar) }
    ensures labels { OnOk result (run.new.labels ≡ bits_of_items (labelled run.old.run.grammar.core generator.old.events)) }
    ensures ended { OnOk result (generator.new.ended ≡ true) }
    ensures draws { OnOk result (generator.new.draws ≡ generator.old.draws) }
{
    while let Some(event) = generator.next()? {
        label_event(run, &event)?;
    }
    Ok(())
}

/// What is drawn of a labelled run, whose generator has ended. Fails only for want of memory.
fn drawn_of(
    alloc: Global,
    generator: &mut Gen<'_>,
    run: &LabelledRun<'_>,
) -> Result<Drawn, AllocError>
    requires ended { generator.old.ended ≡ true }
    ensures instances { IfOk result (λ d. d.instances ≡ length run.now.run.nodes) }
    ensures drawn { IfOk result (IsDrawnOf run.now.labels generator.old.draws) }
{
    let items = run.items();
    let pairs = draw_pairs(alloc, generator, pair_count(items), items)?;
    let labels = labels_of(alloc, run, &pairs)?;
    Ok(Drawn {
        instances: run.run().instances(),
        items,
        longest: run.longest(),
        labels,
    })
}

/// Makes the run of a generator, whose events are accepted one after the other, labels its items, and draws pairs of them. Fails only for want of memory.
///
/// Cost: linear in the run. Takes memory for the run, which it gives back, and for the labels of the items that are drawn.
pub(crate) fn label_run(
    alloc: Global,
    linear: Linear<'_>,
    generator: &mut Gen<'_>,
) -> Result<Drawn, AllocError>
    requires accepted { IsAccepted linear.grammar.now.core instance_most generator.old.events }
    ensures instances { IfOk result (λ d. d.instances ≡ length (made linear.entry.grammar.now.core linear.entry.grammar.now.core.start generator.old.events)) }
    ensures drawn { IfOk result (IsDrawnOf (bits_of_items (labelled linear.entry.grammar.now.core generator.old.events)) generator.old.draws) }
{
    let arena = Bump::new(alloc);
    let run = Run::new(alloc, &arena, linear, INSTANCES);
    let mut labelled = LabelledRun::new(alloc, run);
    label_events(generator, &mut labelled)?;
    drawn_of(alloc, generator, &labelled)
}
