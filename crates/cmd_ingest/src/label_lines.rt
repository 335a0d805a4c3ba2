// Lines of events, whose items are labelled and put line by line.
ghost use Rattle.std.specs.Prelude.{◌∷◌, ◌≡◌, [], ℕ, List, Some, option_map, position, bytes_eq};
ghost use Rattle.std.specs.Cmp.Lexicographic.{pointwise};
ghost use Rattle.wf_model.specs.declared.event.Event.{Event};
ghost use Rattle.wf_model.specs.Lists.{numbers_from};
ghost use Rattle.wf_model.specs.Run.{Expanded, made, names_of, expanded_by};
ghost use Rattle.wf_run.specs.Runs.{IsRunOf, name_at, names_at};
ghost use Rattle.wf_message.specs.Endings.{end_after};
ghost use Rattle.wf_stage.specs.Promises.{Obeys};
ghost use Rattle.wf_inputs.specs.RunTaking.{none_taken_of};
ghost use Rattle.wf_inputs.specs.Reporting.{IsTakenAs};
ghost use Rattle.cmd_ingest.specs.Ingested.{file_head, file_of};
ghost use Rattle.cmd_ingest.specs.Does.{IngestsOver};

use bumpalo::Bump;
use std::alloc::Global;
use wf_accept::Accepted;
use wf_inputs::{INSTANCES, Reporting, events_stop};
use wf_intake::Grows;
use wf_io::{Lines, Shelf, Sink};
use wf_labeller::Labeller;
use wf_lines::{Due, take_lines};
use wf_message::Stop;
use wf_run::{Children, NodeNo, Run};
use wf_spec::{Event, Name, RunFault};

/// A run whose items are labelled, and the entries of the items that the last event made, as they stand in a label file.
#[derive(Drop)]
struct Labelling<'r> {
    labeller: Labeller<'r>,
    text: Vec<u8>,
}

/// The instance of a number, if there is a number.
fn node_of(number: Option<u32>) -> Option<NodeNo>
    ensures { option_map (λ n. n.0) result ≡ number }
{
    match number {
        Some(k) => Some(NodeNo(k)),
        None => None,
    }
}

/// The name of the instance of a number, and no bytes where there is none.
fn name_of<'r>(run: &Run<'r>, n: u64) -> &'r [u8]
    ensures { (events : List Event) → IsRunOf run.now events → result.now ≡ name_at run.now n }
{
    if n < run.instances() as u64 {
        run.name(NodeNo(n as u32))
    } else {
        &[]
    }
}

/// Whether children have these names, one for each.
fn have_names(run: &Run<'_>, children: Children, names: &[Name]) -> bool
    ensures { (events : List Event) → IsRunOf run.now events →
        result ≡ pointwise bytes_eq (names_at run.now (numbers_from children.first children.count)) names.now }
{
    let mut next = children.first as u64;
    let mut left = children.count;
    let mut wanted = names;
    while let [name, more @ ..] = wanted {
        if left == 0 {
            return false;
        }
        if name_of(run, next) != name.bytes() {
            return false;
        }
        next += 1;
        left -= 1;
        wanted = more;
    }
    left == 0
}

/// Whether an instance was expanded into instances of these names.
fn are_children(run: &Run<'_>, n: NodeNo, names: &[Name]) -> bool
    ensures { (events : List Event) → IsRunOf run.now events → (instance : List ℕ) (x : Expanded) →
        position (bytes_eq instance) (names_of (made run.now.grammar.core run.now.grammar.core.start events)) ≡ Some n.0 →
        expanded_by events instance ≡ Some x → result ≡ pointwise bytes_eq x.names names.now }
{
    if n.0 >= run.instances() {
        return false;
    }
    match run.children(n) {
        Some(children) => have_names(run, children, names),
        None => false,
    }
}

impl Grows for Labelling<'_> {
    ghost grammar = { λ l. l.labeller.grammar.core };

    ghost most = { λ l. l.labeller.most };

    ghost is_run = { λ l. IsRunOf l.labeller };

    ghost written = { file_of };

    ghost text = { λ l. l.text.items };

    ghost Known = { Unit {0} };

    ghost is_known = { λ l k. Unit {0} };

    fn is_started(&self) -> bool {
        self.labeller.run().instances() > 0
    }

    fn is_root(&self, name: &[u8]) -> bool {
        name_of(self.labeller.run(), 0) == name
    }

    fn find(&self, name: &[u8]) -> Option<u32> {
        let n = self.labeller.run().find(name)?;
        Some(n.0)
    }

    fn are_children(&self, number: u32, names: &[Name]) -> bool {
        are_children(self.labeller.run(), NodeNo(number), names)
    }

    fn apply(&mut self, number: Option<u32>, event: &Event) -> Result<(), RunFault> {
        match self.labeller.write(node_of(number), event, &mut self.text) {
            Ok(()) => Ok(()),
            Err(fault) => Err(fault),
        }
    }

    fn clear(&mut self) {
        self.text.clear();
    }

    fn text(&self) -> &[u8] {
        &self.text
    }
}

/// Takes the lines of EVENTS by a labelled run that no line was taken by, and puts the entries of the items that each event makes.
fn label_lines<H: Shelf, O: Sink>(
    alloc: Global,
    reporting: &mut Reporting<'_, Labelling<'_>>,
    name: &str,
    shelf: &mut H,
    out: &mut O,
) -> Result<(), Stop>
    requires none { IsTakenAs reporting.old.run.labeller.grammar.core reporting.old.run.labeller.most reporting.old.inbox.kept reporting.old.reported
        (IsRunOf reporting.old.run.labeller) (none_taken_of reporting.old.run.labeller.grammar.core) }
    ensures obeys { Obeys H.files H.readings H.faults H.at_last O.put_bytes O.faults O.at_last (name.now ∷ [])
        (file_head reporting.old.run.labeller.grammar.core) (λ f. IngestsOver reporting.old.run.labeller.grammar.core (f name.now))
        shelf.old shelf.new out.old out.new (end_after result) }
{
    let Ok(mut lines) = Lines::open(alloc, name) else {
        return Err(Stop::NoMemory);
    };
    let Ok(mut due) = Due::new(alloc) else {
        return Err(Stop::NoMemory);
    };
    match take_lines(reporting, &mut lines, &mut due, shelf, out) {
        Ok(_) => Ok(()),
        Err(fault) => Err(events_stop(fault)),
    }
}

/// Labels the items that the events of the lines of EVENTS make, and puts their entries behind the head. Lines are taken as reports, in any order; the entries of each event are due as soon as it is applied, also where one line sets many free, and what is due is put in pieces. The first line that is refused ends it, with its number and the fault, behind the entries of the events that were applied before. So does want of memory.
///
/// Cost: linear in the bytes of the lines and of the entries. Takes memory for the run, for the reports, for one line, for the entries of one event, and for one piece.
pub fn label_events<H: Shelf, O: Sink>(
    alloc: Global,
    spec: &Accepted,
    name: &str,
    shelf: &mut H,
    out: &mut O,
) -> Result<(), Stop>
    ensures obeys { Obeys H.files H.readings H.faults H.at_last O.put_bytes O.faults O.at_last (name.now ∷ [])
        (file_head spec.now.grammar.core) (λ f. IngestsOver spec.now.grammar.core (f name.now))
        shelf.old shelf.new out.old out.new (end_after result) }
{
    let key = shelf.hash_key();
    let arena = Bump::new(alloc);
    let run = Run::with_key(alloc, key, &arena, spec.linear(), INSTANCES);
    let labelling = Labelling {
        labeller: Labeller::new(alloc, run),
        text: Vec::new(alloc),
    };
    let names = Bump::new(alloc);
    let mut reporting = Reporting::new(alloc, key, &names, labelling);
    label_lines(alloc, &mut reporting, name, shelf, out)
}
