// `ingest`: SPEC, the head of a label file, and then EVENTS, whose items are labelled line by line.
ghost use Rattle.std.specs.Prelude.{◌∷◌, []};
ghost use Rattle.wf_message.specs.Endings.{end_after};
ghost use Rattle.wf_stage.specs.Ends.{IsWritten};
ghost use Rattle.wf_stage.specs.Promises.{Writes, Obeys};
ghost use Rattle.cmd_ingest.specs.Ingested.{file_head};
ghost use Rattle.cmd_ingest.specs.Does.{IngestsOver, Ingests};

use crate::label_lines::label_events;
use label_file::append_head;
use std::alloc::Global;
use wf_accept::Accepted;
use wf_inputs::{OverSpec, over_spec};
use wf_io::{Shelf, Sink};
use wf_json::digest;
use wf_message::Stop;
use wf_stage::put_text;

/// Puts the head of the label file of a specification.
fn put_head<O: Sink>(alloc: Global, spec: &Accepted, out: &mut O) -> Result<(), Stop>
    ensures writes { Writes O.put_bytes O.faults O.at_last [] (IsWritten (file_head spec.now.grammar.core)) out.old out.new (end_after result) }
{
    let Ok(digest) = digest(alloc, spec.grammar()) else {
        return Err(Stop::NoMemory);
    };
    let mut head = Vec::new(alloc);
    let Ok(()) = append_head(&digest, &mut head) else {
        return Err(Stop::NoMemory);
    };
    put_text(out, &head)
}

/// The run in a file of events, labelled.
#[derive(Drop)]
struct Labelled<'w> {
    events: &'w str,
}

impl OverSpec for Labelled<'_> {
    ghost names = { λ l. l.events.now ∷ [] };

    ghost does = { λ l f h. IngestsOver h.core (f l.events.now) };

    ghost holds_back = { λ l. ⊥ };

    fn obey_over<H: Shelf, O: Sink>(
        &self,
        alloc: Global,
        accepted: &Accepted,
        shelf: &mut H,
        out: &mut O,
    ) -> Result<(), Stop> {
        put_head(alloc, accepted, out)?;
        label_events(alloc, accepted, self.events, shelf, out)
    }
}

/// Writes the label file of the run of EVENTS: the head once SPEC is accepted, and the entries that a piece of EVENTS makes before more of it is read.
pub fn ingest<H: Shelf, O: Sink>(
    alloc: Global,
    spec_name: &str,
    events_name: &str,
    shelf: &mut H,
    out: &mut O,
) -> Result<(), Stop>
    ensures obeys { Obeys H.files H.readings H.faults H.at_last O.put_bytes O.faults O.at_last (spec_name.now ∷ events_name.now ∷ []) []
        (λ f. Ingests (f spec_name.now) (f events_name.now)) shelf.old shelf.new out.old out.new (end_after result) }
{
    let labelled = Labelled {
        events: events_name,
    };
    over_spec(alloc, spec_name, &labelled, shelf, out)
}
