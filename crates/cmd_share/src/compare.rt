// `compare`: SPEC and two views, and then whether the second, coarser one denies what the first affirms.
ghost use Rattle.std.specs.Prelude.{◌∷◌, ◌≡◌, ◌⊎◌, [], None, IfOk, IfErr, codes};
ghost use Rattle.wf_message.specs.Endings.{end_of, end_after, Done, Refused, NoMemory};
ghost use Rattle.wf_stage.specs.Promises.{Writes, Obeys};
ghost use Rattle.wf_compare.specs.FaultText.{compare_text};
ghost use Rattle.wf_compare.specs.ComparedText.{compared_text};
ghost use Rattle.cmd_share.specs.Told.{ComparesViews};
ghost use Rattle.cmd_share.specs.Stops.{AreNotCompared};
ghost use Rattle.cmd_share.specs.Does.{Compares, ComparesWith};

use std::alloc::Global;
use wf_compare::{CompareFault, Compared, add_text, compare};
use wf_inputs::{COARSE, UnderView, under_view, view_file_stage};
use wf_io::{Shelf, Sink};
use wf_message::{Refusal, Stop, empty_text, refused_whole};
use wf_safe::SafeView;
use wf_spec::Grammar;
use wf_stage::put_text;

/// The names of the files that `compare` reads, in this order.
#[derive(Clone, Copy)]
pub struct CompareWords<'w> {
    pub spec: &'w str,
    pub view: &'w str,
    pub coarse: &'w str,
}

/// The stop at two views that are not compared. The text of the fault is written into an empty one.
fn not_compared(g: &Grammar, fault: CompareFault, mut text: Vec<u8>) -> Stop
    requires { text.items ≡ [] }
    ensures memory { fault ≡ CompareFault.NoMemory → end_of result ≡ NoMemory }
    ensures refused { (end_of result ≡ NoMemory) ⊎ (end_of result ≡ Refused (codes "coarse") None (compare_text g.now.core fault)) }
{
    if let CompareFault::NoMemory = fault {
        return Stop::NoMemory;
    }
    match fault.add_text(&mut text, g) {
        Ok(()) => refused_whole(COARSE.place, Refusal::Written { text }),
        Err(_) => Stop::NoMemory,
    }
}

/// An empty text with what is told of two views of a grammar. Fails only for want of memory.
fn with_told(mut text: Vec<u8>, g: &Grammar, told: &Compared) -> Result<Vec<u8>, Stop>
    requires { text.items ≡ [] }
    ensures told { IfOk result (λ t. t.items ≡ compared_text g.now.core told.now) }
    ensures memory { IfErr result (λ e. end_of e ≡ NoMemory) }
{
    match add_text(&mut text, g, told) {
        Ok(()) => Ok(text),
        Err(_) => Err(Stop::NoMemory),
    }
}

/// The text of what two safe views of one grammar come to. It is made whole, so that want of memory comes before anything is put.
fn comparison(alloc: Global, fine: &SafeView<'_>, coarse: &SafeView<'_>) -> Result<Vec<u8>, Stop>
    requires same { coarse.now.accepted ≡ fine.now.accepted }
    ensures told { IfOk result (λ text. ComparesViews fine.now.accepted.grammar.core fine.now.view.core coarse.now.view.core Done text.items) }
    ensures stops { IfErr result (λ e. AreNotCompared fine.now.accepted.grammar.core fine.now.view.core coarse.now.view.core (end_of e)) }
{
    let Ok(text) = empty_text(alloc) else {
        return Err(Stop::NoMemory);
    };
    match compare(alloc, fine, coarse) {
        Ok(told) => with_told(text, fine.grammar(), &told),
        Err(fault) => Err(not_compared(fine.grammar(), fault, text)),
    }
}

/// Puts what two safe views of one grammar come to.
fn put_comparison<O: Sink>(
    alloc: Global,
    fine: &SafeView<'_>,
    coarse: &SafeView<'_>,
    out: &mut O,
) -> Result<(), Stop>
    requires same { coarse.now.accepted ≡ fine.now.accepted }
    ensures writes { Writes O.put_bytes O.faults O.at_last []
        (ComparesViews fine.now.accepted.grammar.core fine.now.view.core coarse.now.view.core) out.old out.new (end_after result) }
    ensures untouched { end_after result ≡ NoMemory → (O.put_bytes out.new ≡ O.put_bytes out.old) × (O.faults out.new ≡ O.faults out.old) }
{
    // Two safe views of one grammar come to one text.
    let _of_fine = fine.grammar();
    let _of_coarse = coarse.grammar();
    let text = comparison(alloc, fine, coarse)?;
    put_text(out, &text)
}

impl UnderView for CompareWords<'_> {
    ghost names = { λ w. w.coarse.now ∷ [] };

    ghost does = { λ w f h u. ComparesWith h.core u (f w.coarse.now) };

    ghost holds_back = { λ w. Unit {0} };

    fn obey_under<H: Shelf, O: Sink>(
        &self,
        alloc: Global,
        v: &SafeView<'_>,
        shelf: &mut H,
        out: &mut O,
    ) -> Result<(), Stop> {
        let coarse = view_file_stage(alloc, shelf, self.coarse, COARSE, v.accepted())?;
        put_comparison(alloc, v, &coarse, out)
    }
}

/// Tells whether the second of two safe views, which is coarser, ever denies what the first affirms.
///
/// Cost: that of reading the two views and of their safety, and linear in the run that is told.
pub fn compare_views<H: Shelf, O: Sink>(
    alloc: Global,
    words: &CompareWords<'_>,
    shelf: &mut H,
    out: &mut O,
) -> Result<(), Stop>
    ensures obeys { Obeys H.files H.readings H.faults H.at_last O.put_bytes O.faults O.at_last
        (words.now.spec.now ∷ words.now.view.now ∷ words.now.coarse.now ∷ []) []
        (λ f. Compares (f words.now.spec.now) (f words.now.view.now) (f words.now.coarse.now))
        shelf.old shelf.new out.old out.new (end_after result) }
    ensures untouched { end_after result ≡ NoMemory → (O.put_bytes out.new ≡ O.put_bytes out.old) × (O.faults out.new ≡ O.faults out.old) }
{
    under_view(alloc, words.spec, words.view, words, shelf, out)
}
