// The view in a file: from bytes to a safe view of a grammar.
ghost use Rattle.std.specs.Prelude.{◌≡◌, ◌⊎◌, [], None, IfOk, IfErr};
ghost use Rattle.wf_view.specs.Viewing.{view_of};
ghost use Rattle.wf_view.specs.Rules.{IsViewed};
ghost use Rattle.wf_view.specs.Held.{IsHeldFor};
ghost use Rattle.wf_message.specs.Endings.{end_of, Refused, NoMemory};
ghost use Rattle.wf_stage.specs.Stages.{Declines, OfWhole};
ghost use Rattle.wf_stage.specs.Promises.{Reads};
ghost use Rattle.wf_view.specs.FaultText.{view_text};
ghost use Rattle.wf_safe.specs.WitnessText.{unsafe_text};
ghost use Rattle.wf_stage.specs.Kinds.{kind_of};
ghost use Rattle.wf_inputs.specs.Inputs.{view_kind};
ghost use Rattle.wf_safe.specs.SafeViews.{IsSafeView};
ghost use Rattle.wf_inputs.specs.ViewTold.{IsViewText, TellsView, RefusesView, RefusesViewParts, RefusesUnsafe};

use crate::faults::{named, shape_refusal, view_refusal};
use crate::kinds::VIEW;
use std::alloc::Global;
use wf_accept::Accepted;
use wf_io::Shelf;
use wf_json::{JsonFault, read_view};
use wf_message::{Place, Refusal, Stop, empty_text, refused_whole};
use wf_safe::{SafeFault, SafeView, Witness};
use wf_spec::{Grammar, ViewParts};
use wf_stage::{FileKind, read_file};
use wf_view::{View, ViewFault};

/// The parts of a view in JSON.
fn parts_of_bytes(alloc: Global, place: Place, bytes: &[u8]) -> Result<ViewParts, Stop>
    ensures ok { IfOk result (λ p. IsViewText bytes.now p) }
    ensures declines { IfErr result (λ e. (g : _) → Declines place.word.now (OfWhole (RefusesView g) bytes.now) (end_of e)) }
{
    match read_view(alloc, bytes) {
        Ok(parts) => Ok(parts),
        Err(JsonFault::NotJson) => Err(refused_whole(place, named(b"NotJson"))),
        Err(JsonFault::WrongShape { member }) => Err(refused_whole(place, shape_refusal(member))),
        Err(JsonFault::NoMemory) => Err(Stop::NoMemory),
    }
}

/// The stop at a fault of the parts.
fn view_stop(place: Place, fault: ViewFault) -> Stop
    ensures memory { fault ≡ ViewFault.NoMemory → end_of result ≡ NoMemory }
    ensures refused { (fault ≡ ViewFault.NoMemory) ⊎ (end_of result ≡ Refused place.word.now None (view_text fault)) }
{
    match fault {
        ViewFault::NoMemory => Stop::NoMemory,
        _ => refused_whole(place, view_refusal(fault)),
    }
}

/// The view of a grammar that parts describe.
fn view_of_parts(alloc: Global, place: Place, g: &Grammar, parts: &ViewParts) -> Result<View, Stop>
    ensures ok { IfOk result (λ v. (v.core ≡ view_of g.now.core parts.now) × IsViewed g.now.core parts.now) }
    ensures held { IfOk result (λ v. IsHeldFor g.now.core v) }
    ensures declines { IfErr result (λ e. Declines place.word.now (OfWhole (RefusesViewParts g.now.core) parts.now) (end_of e)) }
{
    match View::build(alloc, g, parts) {
        Ok(view) => Ok(view),
        Err(fault) => Err(view_stop(place, fault)),
    }
}

/// The stop at a view that is not safe, whose witness is written into an empty text.
fn unsafe_stop(place: Place, g: &Grammar, witness: &Witness, mut text: Vec<u8>) -> Stop
    requires { text.items ≡ [] }
    ensures { (end_of result ≡ NoMemory) ⊎ (end_of result ≡ Refused place.word.now None (unsafe_text g.now.core witness.now)) }
{
    match witness.add_text(&mut text, g) {
        Ok(()) => refused_whole(place, Refusal::Written { text }),
        Err(_) => Stop::NoMemory,
    }
}

/// A view that is safe.
fn safe_view<'a>(
    alloc: Global,
    place: Place,
    accepted: &'a Accepted,
    view: View,
) -> Result<SafeView<'a>, Stop>
    requires held { IsHeldFor accepted.now.grammar.core view }
    ensures ok { IfOk result (λ v. (v.accepted ≡ accepted.now) × (v.view ≡ view)) }
    ensures safe { IfOk result (λ v. IsSafeView v) }
    ensures declines { IfErr result (λ e. Declines place.word.now (OfWhole (RefusesUnsafe accepted.now.grammar.core) view.core) (end_of e)) }
{
    let Ok(text) = empty_text(alloc) else {
        return Err(Stop::NoMemory);
    };
    let g = accepted.grammar();
    match SafeView::of(alloc, accepted, view) {
        Ok(safe) => {
            let _facts = safe.accepted();
            Ok(safe)
        }
        Err(SafeFault::Unsafe { witness }) => Err(unsafe_stop(place, g, &witness, text)),
        Err(SafeFault::NoMemory) => Err(Stop::NoMemory),
    }
}

/// The safe view of an accepted grammar that bytes tell.
///
/// Refused with the first that there is of: NotJson; WrongShape; the fault of the parts; and Unsafe where the view is not safe. `NoMemory` may come at any time.
///
/// Cost: those of `read_view`, `View::build` and `SafeView::of`.
fn view_of_bytes<'a>(
    alloc: Global,
    place: Place,
    accepted: &'a Accepted,
    bytes: &[u8],
) -> Result<SafeView<'a>, Stop>
    ensures accepted { IfOk result (λ v. v.accepted ≡ accepted.now) }
    ensures ok { IfOk result (λ v. TellsView accepted.now.grammar.core bytes.now v.view.core) }
    ensures declines { IfErr result (λ e. Declines place.word.now (OfWhole (RefusesView accepted.now.grammar.core) bytes.now) (end_of e)) }
{
    let parts = parts_of_bytes(alloc, place, bytes)?;
    let view = view_of_parts(alloc, place, accepted.grammar(), &parts)?;
    safe_view(alloc, place, accepted, view)
}

/// The safe view in a file of a kind, of the grammar of SPEC.
pub fn view_file_stage<'a, H: Shelf>(
    alloc: Global,
    shelf: &mut H,
    name: &str,
    kind: FileKind,
    accepted: &'a Accepted,
) -> Result<SafeView<'a>, Stop>
    ensures accepted { IfOk result (λ v. v.accepted ≡ accepted.now) }
    ensures reads { Reads H.files H.readings H.faults H.at_last (kind_of kind) name.now (TellsView accepted.now.grammar.core)
        (λ v. v.view.core) (OfWhole (RefusesView accepted.now.grammar.core)) shelf.old shelf.new result }
{
    let bytes = read_file(alloc, shelf, name, kind)?;
    view_of_bytes(alloc, kind.place, accepted, &bytes)
}

/// The safe view of VIEW, of the grammar of SPEC.
pub fn view_stage<'a, H: Shelf>(
    alloc: Global,
    shelf: &mut H,
    name: &str,
    accepted: &'a Accepted,
) -> Result<SafeView<'a>, Stop>
    ensures accepted { IfOk result (λ v. v.accepted ≡ accepted.now) }
    ensures reads { Reads H.files H.readings H.faults H.at_last view_kind name.now (TellsView accepted.now.grammar.core)
        (λ v. v.view.core) (OfWhole (RefusesView accepted.now.grammar.core)) shelf.old shelf.new result }
{
    view_file_stage(alloc, shelf, name, VIEW, accepted)
}
