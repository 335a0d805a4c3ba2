// `package`: SPEC and VIEW, and then the package of the view.
ghost use Rattle.std.specs.Prelude.{◌∷◌, ◌≡◌, []};
ghost use Rattle.wf_message.specs.Endings.{end_after, NoMemory};
ghost use Rattle.wf_stage.specs.Promises.{Writes, Obeys};
ghost use Rattle.cmd_share.specs.Does.{IsPackaged, Packages};

use std::alloc::Global;
use wf_inputs::{UnderView, under_view};
use wf_io::{Shelf, Sink};
use wf_message::Stop;
use wf_package::write_package;
use wf_safe::SafeView;
use wf_stage::put_text;

/// The names of the files that `package` reads, in this order.
#[derive(Clone, Copy)]
pub struct PackageWords<'w> {
    pub spec: &'w str,
    pub view: &'w str,
}

/// Puts the package of a safe view. It is made whole, so that want of memory comes before anything is put.
fn put_package<O: Sink>(alloc: Global, v: &SafeView<'_>, out: &mut O) -> Result<(), Stop>
    ensures writes { Writes O.put_bytes O.faults O.at_last [] (IsPackaged v.now.accepted.grammar.core v.now.view.core) out.old out.new (end_after result) }
    ensures untouched { end_after result ≡ NoMemory → (O.put_bytes out.new ≡ O.put_bytes out.old) × (O.faults out.new ≡ O.faults out.old) }
{
    let Ok(text) = write_package(alloc, v) else {
        return Err(Stop::NoMemory);
    };
    put_text(out, &text)
}

impl UnderView for PackageWords<'_> {
    ghost names = { λ w. [] };

    ghost does = { λ w f h u. IsPackaged h.core u };

    ghost holds_back = { λ w. Unit {0} };

    fn obey_under<H: Shelf, O: Sink>(
        &self,
        alloc: Global,
        v: &SafeView<'_>,
        shelf: &mut H,
        out: &mut O,
    ) -> Result<(), Stop> {
        put_package(alloc, v, out)
    }
}

/// Writes the package of a safe view: what it shows, on one line that answers without the specification.
///
/// Cost: that of reading the view and of its safety, and of `write_package`.
pub fn package_view<H: Shelf, O: Sink>(
    alloc: Global,
    words: &PackageWords<'_>,
    shelf: &mut H,
    out: &mut O,
) -> Result<(), Stop>
    ensures obeys { Obeys H.files H.readings H.faults H.at_last O.put_bytes O.faults O.at_last (words.now.spec.now ∷ words.now.view.now ∷ []) []
        (λ f. Packages (f words.now.spec.now) (f words.now.view.now)) shelf.old shelf.new out.old out.new (end_after result) }
    ensures untouched { end_after result ≡ NoMemory → (O.put_bytes out.new ≡ O.put_bytes out.old) × (O.faults out.new ≡ O.faults out.old) }
{
    under_view(alloc, words.spec, words.view, words, shelf, out)
}
