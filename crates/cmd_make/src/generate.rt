// `gen`: SPEC, and then the events of a generated run of its grammar.
ghost use Rattle.std.specs.Prelude.{◌∷◌, ◌≡◌, ◌<◌, ℕ, ◌++◌, List, [], length, OnOk};
ghost use Rattle.wf_message.specs.Endings.{end_after};
ghost use Rattle.wf_stage.specs.Ends.{IsWritten};
ghost use Rattle.wf_stage.specs.Promises.{Writes, Obeys};
ghost use Rattle.cmd_make.specs.EventLines.{event_lines};
ghost use Rattle.cmd_make.specs.Putting.{MakesDue};
ghost use Rattle.cmd_make.specs.Does.{generated_text, Generates};

use std::alloc::Global;
use wf_accept::Accepted;
use wf_gen::Gen;
use wf_inputs::{INSTANCES, OverSpec, over_spec};
use wf_io::{PIECE, Shelf, Sink};
use wf_lines::Due;
use wf_message::Stop;
use wf_stage::put_text;

/// Puts what is due once it is as long as a piece, and leaves a shorter text due. It is what was due before, and a line behind it.
fn put_piece<O: Sink>(due: &mut Due, out: &mut O) -> Result<(), Stop>
    ensures makes { (before line : List ℕ) → due.old ≡ before ++ line
        → MakesDue O.put_bytes O.faults O.at_last before line due.new out.old out.new (end_after result) }
    ensures short { OnOk result (length due.new < PIECE) }
{
    match due.pass_on(out) {
        Ok(()) => Ok(()),
        Err(_) => Err(Stop::WriteFault),
    }
}

/// The lines of the events that a generator has before it are due behind what is.
fn add_events<O: Sink>(events: &mut Gen<'_>, due: &mut Due, out: &mut O) -> Result<(), Stop>
    ensures makes { MakesDue O.put_bytes O.faults O.at_last due.old (event_lines events.old.events) due.new out.old out.new (end_after result) }
{
    loop {
        match events.write_next(&mut due.text) {
            Ok(true) => {
                if let Err(stop) = put_piece(due, out) {
                    return Err(stop);
                }
            }
            Ok(false) => return Ok(()),
            Err(_) => return Err(Stop::NoMemory),
        }
    }
}

/// Puts the lines of the events that a generator has before it, in pieces.
fn put_events<O: Sink>(alloc: Global, events: &mut Gen<'_>, out: &mut O) -> Result<(), Stop>
    ensures writes { Writes O.put_bytes O.faults O.at_last [] (IsWritten (event_lines events.old.events)) out.old out.new (end_after result) }
{
    let Ok(mut due) = Due::new(alloc) else {
        return Err(Stop::NoMemory);
    };
    if let Err(stop) = add_events(events, &mut due, out) {
        return Err(stop);
    }
    put_text(out, &due.text)
}

/// The name of the file that `gen` reads, the number of expansions at most, and the seed.
#[derive(Clone, Copy)]
pub struct GenWords<'w> {
    pub spec: &'w str,
    pub n: u32,
    pub seed: u64,
}

/// Puts the events of the run of a grammar that a number of expansions and a seed give, as lines.
fn put_generated<O: Sink>(
    alloc: Global,
    spec: &Accepted,
    words: &GenWords<'_>,
    out: &mut O,
) -> Result<(), Stop>
    ensures writes { Writes O.put_bytes O.faults O.at_last [] (IsWritten (generated_text spec.now.grammar.core words.now.n words.now.seed)) out.old out.new (end_after result) }
{
    let mut events = Gen::new(alloc, spec.linear(), words.n, words.seed, INSTANCES);
    put_events(alloc, &mut events, out)
}

impl OverSpec for GenWords<'_> {
    ghost names = { λ w. [] };

    ghost does = { λ w f h. IsWritten (generated_text h.core w.n w.seed) };

    ghost holds_back = { λ w. ⊥ };

    fn obey_over<H: Shelf, O: Sink>(
        &self,
        alloc: Global,
        accepted: &Accepted,
        shelf: &mut H,
        out: &mut O,
    ) -> Result<(), Stop> {
        put_generated(alloc, accepted, self, out)
    }
}

/// Writes the events of the run of a grammar that a number of expansions and a seed give, as lines.
///
/// Cost: linear in the text.
pub(crate) fn generate<H: Shelf, O: Sink>(
    alloc: Global,
    words: &GenWords<'_>,
    shelf: &mut H,
    out: &mut O,
) -> Result<(), Stop>
    ensures obeys { Obeys H.files H.readings H.faults H.at_last O.put_bytes O.faults O.at_last (words.now.spec.now ∷ []) []
        (λ f. Generates (f words.now.spec.now) words.now.n words.now.seed)
        shelf.old shelf.new out.old out.new (end_after result) }
{
    over_spec(alloc, words.spec, words, shelf, out)
}
