// SPEC and VIEW, opened for each command that goes on under the view.
ghost use Rattle.std.specs.Prelude.{◌∷◌, ◌≡◌, ℕ, List, []};
ghost use Rattle.wf_model.specs.View.{View};
ghost use Rattle.wf_spec.specs.Held.{HeldGrammar};
ghost use Rattle.wf_io.specs.Told.{File};
ghost use Rattle.wf_message.specs.Endings.{End, NoMemory, end_after};
ghost use Rattle.wf_stage.specs.Promises.{Obeys};
ghost use Rattle.wf_inputs.specs.Inputs.{SpecStage, ViewStage};

use crate::opening::{OverSpec, over_spec};
use crate::view::view_stage;
use std::alloc::Global;
use wf_accept::Accepted;
use wf_io::{Shelf, Sink};
use wf_message::Stop;
use wf_safe::SafeView;

/// What a command does once SPEC and VIEW are taken.
pub trait UnderView {
    /// The names of the files that it reads then.
    ghost names: { Self → List (List ℕ) };

    /// What it does over files, under a view of a grammar.
    ghost does: { Self → (List ℕ → File) → HeldGrammar → View → End → List ℕ → Type 0 };

    /// When it puts nothing where memory is wanting.
    ghost holds_back: { Self → Type 0 };

    /// Does it over the files of a shelf, and puts its text to `out`.
    fn obey_under<H: Shelf, O: Sink>(
        &self,
        alloc: Global,
        v: &SafeView<'_>,
        shelf: &mut H,
        out: &mut O,
    ) -> Result<(), Stop>
        ensures obeys { Obeys H.files H.readings H.faults H.at_last O.put_bytes O.faults O.at_last (names self.now) []
            (λ f. does self.now f v.now.accepted.grammar v.now.view.core) shelf.old shelf.new out.old out.new (end_after result) }
        ensures untouched { end_after result ≡ NoMemory → holds_back self.now →
            (O.put_bytes out.new ≡ O.put_bytes out.old) × (O.faults out.new ≡ O.faults out.old) };
}

/// VIEW, and what is done once it is taken.
#[derive(Drop)]
struct BehindView<'r, R> {
    view: &'r str,
    rest: &'r R,
}

impl<R: UnderView> OverSpec for BehindView<'_, R> {
    ghost names = { λ b. b.view.now ∷ R.names b.rest.now };

    ghost does = { λ b f h. ViewStage h.core (f b.view.now) (R.does b.rest.now f h) };

    ghost holds_back = { λ b. R.holds_back b.rest.now };

    fn obey_over<H: Shelf, O: Sink>(
        &self,
        alloc: Global,
        accepted: &Accepted,
        shelf: &mut H,
        out: &mut O,
    ) -> Result<(), Stop> {
        match view_stage(alloc, shelf, self.view, accepted) {
            Ok(safe) => self.rest.obey_under(alloc, &safe, shelf, out),
            Err(stop) => Err(stop),
        }
    }
}

/// Takes SPEC and VIEW from the files of these names, and does the rest under the view.
pub fn under_view<R: UnderView, H: Shelf, O: Sink>(
    alloc: Global,
    spec: &str,
    view: &str,
    rest: &R,
    shelf: &mut H,
    out: &mut O,
) -> Result<(), Stop>
    ensures obeys { Obeys H.files H.readings H.faults H.at_last O.put_bytes O.faults O.at_last (spec.now ∷ view.now ∷ R.names rest.now) []
        (λ f. SpecStage (f spec.now) (λ h. ViewStage h.core (f view.now) (R.does rest.now f h)))
        shelf.old shelf.new out.old out.new (end_after result) }
    ensures untouched { end_after result ≡ NoMemory → R.holds_back rest.now →
        (O.put_bytes out.new ≡ O.put_bytes out.old) × (O.faults out.new ≡ O.faults out.old) }
{
    let behind = BehindView { view, rest };
    over_spec(alloc, spec, &behind, shelf, out)
}
