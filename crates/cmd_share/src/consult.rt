// `consult`: PACKAGE, and then what two labels tell by it.
ghost use Rattle.std.specs.Prelude.{◌∷◌, ◌≡◌, ℕ, List, [], IfOk, IfErr};
ghost use Rattle.hex.specs.Hex.{decode_of};
ghost use Rattle.label_words.specs.Digits.{bytes_in};
ghost use Rattle.package_model.specs.Consulting.{IsConsulted};
ghost use Rattle.wf_loops.specs.Looped.{loop_in};
ghost use Rattle.wf_translate.specs.Translated.{IsTranslatedAs};
ghost use Rattle.wf_model.specs.DefaultView.{default_view};
ghost use Rattle.label_model.specs.Labels.{Label, IsLabel, label_bits};
ghost use Rattle.verdict_model.specs.Verdicts.{IsVerdict};
ghost use Rattle.wf_label.specs.Values.{AreLabelBits};
ghost use Rattle.wf_message.specs.Endings.{end_of, end_after, NoMemory};
ghost use Rattle.wf_stage.specs.Promises.{Writes, Obeys};
ghost use Rattle.cmd_share.specs.PackageTold.{package_value};
ghost use Rattle.cmd_share.specs.Consulted.{ConsultsLabels};
ghost use Rattle.cmd_share.specs.Stops.{IsNoLabelOver, AreNotConsulted};
ghost use Rattle.cmd_share.specs.Does.{Consults};

use crate::package_input::package_stage;
use bit_pack::Bits;
use label_words::{HexWord, verdict_line};
use package_file::Package;
use std::alloc::Global;
use wf_decode::Verdict;
use wf_inputs::named;
use wf_io::{Shelf, Sink};
use wf_message::{Place, Stop, refused_whole};
use wf_stage::put_text;
use wf_translate::{PackLabelFault, Packed, label_in, translate};
use wf_verdict::verdict_of;

/// The two labels among the words.
const FIRST: Place = Place { word: b"label 1" };

const SECOND: Place = Place { word: b"label 2" };

/// The name of the file that `consult` reads, and the hexadecimal digits of two labels.
#[derive(Clone, Copy)]
pub struct ConsultWords<'w> {
    pub source: &'w str,
    pub first: HexWord<'w>,
    pub second: HexWord<'w>,
}

/// What the digits of a label come to over a package, refused as Malformed at its place among the words.
fn packed_of(alloc: Global, held: &Package, place: Place, word: HexWord<'_>) -> Result<Packed, Stop>
    ensures packed { IfOk result (IsTranslatedAs held.now.accepted.grammar.core (loop_in held.now.steps) (bytes_in (decode_of word.entry.word.now))) }
    ensures stops { IfErr result (λ e. IsNoLabelOver held.now place.word.now (bytes_in (decode_of word.entry.word.now)) (end_of e)) }
{
    let Ok(bytes) = word.bytes(alloc) else {
        return Err(Stop::NoMemory);
    };
    match translate(alloc, held.looped(), &bytes) {
        Ok(packed) => Ok(packed),
        Err(PackLabelFault::Malformed) => Err(refused_whole(place, named(b"Malformed"))),
        Err(PackLabelFault::NoMemory) => Err(Stop::NoMemory),
    }
}

/// The verdict on two labels of a package's grammar, under its default view. Fails only for want of memory.
fn verdict_inside(
    alloc: Global,
    held: &Package,
    first: &Bits,
    second: &Bits,
) -> Result<Verdict, Stop>
    requires first { AreLabelBits held.now.accepted.grammar.core first.now }
    requires second { AreLabelBits held.now.accepted.grammar.core second.now }
    ensures verdict { IfOk result (λ v. (x y : Label) → IsLabel held.now.accepted.grammar.core x → IsLabel held.now.accepted.grammar.core y →
        first.now ≡ label_bits x → second.now ≡ label_bits y → IsVerdict held.now.accepted.grammar.core (default_view held.now.accepted.grammar.core) x y v) }
    ensures memory { IfErr result (λ e. end_of e ≡ NoMemory) }
{
    let Ok(view) = held.safe_view(alloc) else {
        return Err(Stop::NoMemory);
    };
    match verdict_of(alloc, &view, label_in(first), label_in(second)) {
        Ok(verdict) => Ok(verdict),
        Err(_) => Err(Stop::NoMemory),
    }
}

/// The verdict by a package on what the bytes of two labels come to over it. Fails only for want of memory.
fn verdict_by(
    alloc: Global,
    held: &Package,
    first: &Packed,
    second: &Packed,
) -> Result<Verdict, Stop>
    requires first { (x : List ℕ) × IsTranslatedAs held.now.accepted.grammar.core (loop_in held.now.steps) x first.now }
    requires second { (y : List ℕ) × IsTranslatedAs held.now.accepted.grammar.core (loop_in held.now.steps) y second.now }
    ensures verdict { IfOk result (λ v. (x y : List ℕ) → IsTranslatedAs held.now.accepted.grammar.core (loop_in held.now.steps) x first.now →
        IsTranslatedAs held.now.accepted.grammar.core (loop_in held.now.steps) y second.now →
        IsConsulted held.now.accepted.grammar.core (loop_in held.now.steps) x y v) }
    ensures memory { IfErr result (λ e. end_of e ≡ NoMemory) }
{
    match (first, second) {
        (Packed::Outside, _) => Ok(Verdict::Hidden1),
        (Packed::Inside(_), Packed::Outside) => Ok(Verdict::Hidden2),
        (Packed::Inside(x), Packed::Inside(y)) => verdict_inside(alloc, held, x, y),
    }
}

/// The verdict by a package on two labels, which are tried in order.
fn verdict_of_words(
    alloc: Global,
    held: &Package,
    words: &ConsultWords<'_>,
) -> Result<Verdict, Stop>
    ensures verdict { IfOk result (IsConsulted held.now.accepted.grammar.core (loop_in held.now.steps)
        (bytes_in (decode_of words.now.first.word.now)) (bytes_in (decode_of words.now.second.word.now))) }
    ensures stops { IfErr result (λ e. AreNotConsulted held.now
        (bytes_in (decode_of words.now.first.word.now)) (bytes_in (decode_of words.now.second.word.now)) (end_of e)) }
{
    let first = packed_of(alloc, held, FIRST, words.first)?;
    let second = packed_of(alloc, held, SECOND, words.second)?;
    verdict_by(alloc, held, &first, &second)
}

/// Puts the verdict by a package on two labels.
fn put_verdict<O: Sink>(
    alloc: Global,
    held: &Package,
    words: &ConsultWords<'_>,
    out: &mut O,
) -> Result<(), Stop>
    ensures writes { Writes O.put_bytes O.faults O.at_last []
        (ConsultsLabels (package_value held.now) (bytes_in (decode_of words.now.first.word.now)) (bytes_in (decode_of words.now.second.word.now)))
        out.old out.new (end_after result) }
    ensures untouched { end_after result ≡ NoMemory → (O.put_bytes out.new ≡ O.put_bytes out.old) × (O.faults out.new ≡ O.faults out.old) }
{
    let _held = held.looped();
    let verdict = verdict_of_words(alloc, held, words)?;
    put_text(out, verdict_line(verdict))
}

/// Writes what two labels tell by a package, without the specification of which they are.
///
/// Cost: that of reading the package, of translating the two labels, and of the verdict under a safe view.
pub fn consult<H: Shelf, O: Sink>(
    alloc: Global,
    words: &ConsultWords<'_>,
    shelf: &mut H,
    out: &mut O,
) -> Result<(), Stop>
    ensures obeys { Obeys H.files H.readings H.faults H.at_last O.put_bytes O.faults O.at_last (words.now.source.now ∷ []) []
        (λ f. Consults (f words.now.source.now) (bytes_in (decode_of words.now.first.word.now)) (bytes_in (decode_of words.now.second.word.now)))
        shelf.old shelf.new out.old out.new (end_after result) }
    ensures untouched { end_after result ≡ NoMemory → (O.put_bytes out.new ≡ O.put_bytes out.old) × (O.faults out.new ≡ O.faults out.old) }
{
    let held = package_stage(alloc, shelf, words.source)?;
    put_verdict(alloc, &held, words, out)
}
