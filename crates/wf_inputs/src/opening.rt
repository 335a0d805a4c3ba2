// SPEC, opened for each command that goes on over its grammar.
ghost use Rattle.std.specs.Prelude.{◌∷◌, ◌≡◌, ℕ, List, []};
ghost use Rattle.wf_spec.specs.Held.{HeldGrammar};
ghost use Rattle.wf_io.specs.Told.{File};
ghost use Rattle.wf_message.specs.Endings.{End, NoMemory, end_after};
ghost use Rattle.wf_stage.specs.Promises.{Obeys};
ghost use Rattle.wf_inputs.specs.Inputs.{SpecStage};

use crate::specification::spec_stage;
use std::alloc::Global;
use wf_accept::Accepted;
use wf_io::{Shelf, Sink};
use wf_message::Stop;

/// What a command does once SPEC is taken.
pub trait OverSpec {
    /// The names of the files that it reads then.
    ghost names: { Self → List (List ℕ) };

    /// What it does over files, of a grammar.
    ghost does: { Self → (List ℕ → File) → HeldGrammar → End → List ℕ → Type 0 };

    /// When it puts nothing where memory is wanting.
    ghost holds_back: { Self → Type 0 };

    /// Does it over the files of a shelf, and puts its text to `out`.
    fn obey_over<H: Shelf, O: Sink>(
        &self,
        alloc: Global,
        accepted: &Accepted,
        shelf: &mut H,
        out: &mut O,
    ) -> Result<(), Stop>
        ensures obeys { Obeys H.files H.readings H.faults H.at_last O.put_bytes O.faults O.at_last (names self.now) []
            (λ f. does self.now f accepted.now.grammar) shelf.old shelf.new out.old out.new (end_after result) }
        ensures untouched { end_after result ≡ NoMemory → holds_back self.now →
            (O.put_bytes out.new ≡ O.put_bytes out.old) × (O.faults out.new ≡ O.faults out.old) };
}

/// Takes SPEC from the file of this name, and does the rest over its grammar.
pub fn over_spec<R: OverSpec, H: Shelf, O: Sink>(
    alloc: Global,
    spec: &str,
    rest: &R,
    shelf: &mut H,
    out: &mut O,
) -> Result<(), Stop>
    ensures obeys { Obeys H.files H.readings H.faults H.at_last O.put_bytes O.faults O.at_last (spec.now ∷ R.names rest.now) []
        (λ f. SpecStage (f spec.now) (R.does rest.now f)) shelf.old shelf.new out.old out.new (end_after result) }
    ensures untouched { end_after result ≡ NoMemory → R.holds_back rest.now →
        (O.put_bytes out.new ≡ O.put_bytes out.old) × (O.faults out.new ≡ O.faults out.old) }
{
    match spec_stage(alloc, shelf, spec) {
        Ok(accepted) => rest.obey_over(alloc, &accepted, shelf, out),
        Err(stop) => Err(stop),
    }
}
