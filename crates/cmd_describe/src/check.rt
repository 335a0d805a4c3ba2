// `check`: SPEC, and then the text of its grammar.
ghost use Rattle.std.specs.Prelude.{◌∷◌, []};
ghost use Rattle.wf_message.specs.Endings.{end_after};
ghost use Rattle.wf_stage.specs.Promises.{Writes, Obeys};
ghost use Rattle.cmd_describe.specs.Does.{IsChecked, Checks};

use crate::check_text::check_text;
use std::alloc::Global;
use wf_accept::Accepted;
use wf_inputs::{OverSpec, over_spec};
use wf_io::{Shelf, Sink};
use wf_message::Stop;
use wf_stage::put_text;

/// Puts the text of a grammar. It is made whole before it is put, so that want of memory leaves `out` as it was.
fn put_grammar<O: Sink>(alloc: Global, spec: &Accepted, out: &mut O) -> Result<(), Stop>
    ensures writes { Writes O.put_bytes O.faults O.at_last [] (IsChecked spec.now.grammar.core) out.old out.new (end_after result) }
{
    // A strictly linear grammar has one text.
    let _taken = spec.grammar();
    let Ok(text) = check_text(alloc, spec) else {
        return Err(Stop::NoMemory);
    };
    put_text(out, &text)
}

/// What `check` does once SPEC is taken.
struct Checking;

impl OverSpec for Checking {
    ghost names = { λ c. [] };

    ghost does = { λ c f h. IsChecked h.core };

    ghost holds_back = { λ c. ⊥ };

    fn obey_over<H: Shelf, O: Sink>(
        &self,
        alloc: Global,
        accepted: &Accepted,
        shelf: &mut H,
        out: &mut O,
    ) -> Result<(), Stop> {
        put_grammar(alloc, accepted, out)
    }
}

/// Writes the canonical text of the grammar of SPEC, and a line for each composite module.
pub fn check<H: Shelf, O: Sink>(
    alloc: Global,
    name: &str,
    shelf: &mut H,
    out: &mut O,
) -> Result<(), Stop>
    ensures obeys { Obeys H.files H.readings H.faults H.at_last O.put_bytes O.faults O.at_last (name.now ∷ []) []
        (λ f. Checks (f name.now)) shelf.old shelf.new out.old out.new (end_after result) }
{
    over_spec(alloc, name, &Checking, shelf, out)
}
