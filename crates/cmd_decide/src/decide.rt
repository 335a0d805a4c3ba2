// `decide`: SPEC and VIEW, and then what two labels tell under the view.
ghost use Rattle.std.specs.Prelude.{◌∷◌, ◌≡◌, ◌++◌, [], None, IfOk, IfErr, codes};
ghost use Rattle.bit_pack.specs.Bits.{Holds};
ghost use Rattle.hex.specs.Hex.{decode_of};
ghost use Rattle.label_model.specs.Reading.{IsLabelBytes};
ghost use Rattle.wf_label.specs.Values.{AreLabelBits};
ghost use Rattle.wf_message.specs.Endings.{end_of, end_after, Refused, NoMemory};
ghost use Rattle.wf_stage.specs.Promises.{Writes, Obeys};
ghost use Rattle.label_words.specs.Digits.{bytes_in};
ghost use Rattle.cmd_decide.specs.Decided.{DecidesLabels};
ghost use Rattle.cmd_decide.specs.Does.{Decides};

use crate::words::DecideWords;
use label_words::{HexWord, verdict_line};
use std::alloc::Global;
use wf_inputs::{UnderView, named, under_view};
use wf_io::{Shelf, Sink};
use wf_label::LabelRef;
use wf_message::{Place, Stop, refused_whole};
use wf_safe::SafeView;
use wf_stage::put_text;
use wf_verdict::verdict_of;

/// The two labels among the words.
const FIRST: Place = Place { word: b"label 1" };

const SECOND: Place = Place { word: b"label 2" };

/// The bytes of hexadecimal digits. Fails only for want of memory.
fn bytes_of(alloc: Global, word: HexWord<'_>) -> Result<Vec<u8>, Stop>
    ensures bytes { IfOk result (λ bytes. bytes.items ≡ bytes_in (decode_of word.entry.word.now)) }
    ensures memory { IfErr result (λ e. end_of e ≡ NoMemory) }
{
    match word.bytes(alloc) {
        Ok(bytes) => Ok(bytes),
        Err(_) => Err(Stop::NoMemory),
    }
}

/// The label that bytes are, of the grammar of a view, refused as Malformed at its place among the words.
fn label_of<'a>(v: &SafeView<'_>, place: Place, bytes: &'a [u8]) -> Result<LabelRef<'a>, Stop>
    ensures label { IfOk result (λ r. AreLabelBits v.now.accepted.grammar.core r × Holds bytes.now r) }
    ensures malformed { IfErr result (λ e. (IsLabelBytes v.now.accepted.grammar.core bytes.now → ⊥) ×
        (end_of e ≡ Refused place.word.now None (codes "Malformed"))) }
{
    match LabelRef::check(v.linear(), bytes) {
        Ok(label) => Ok(label),
        Err(_) => Err(refused_whole(place, named(b"Malformed"))),
    }
}

/// Puts the verdict on two labels, which are tried in order.
fn put_verdict<O: Sink>(
    alloc: Global,
    v: &SafeView<'_>,
    words: &DecideWords<'_>,
    out: &mut O,
) -> Result<(), Stop>
    ensures writes { Writes O.put_bytes O.faults O.at_last []
        (DecidesLabels v.now.accepted.grammar.core v.now.view.core (bytes_in (decode_of words.now.first.word.now)) (bytes_in (decode_of words.now.second.word.now)))
        out.old out.new (end_after result) }
{
    let first_bytes = bytes_of(alloc, words.first)?;
    let second_bytes = bytes_of(alloc, words.second)?;
    let first = label_of(v, FIRST, &first_bytes)?;
    let second = label_of(v, SECOND, &second_bytes)?;
    let Ok(verdict) = verdict_of(alloc, v, first, second) else {
        return Err(Stop::NoMemory);
    };
    put_text(out, verdict_line(verdict))
}

impl UnderView for DecideWords<'_> {
    ghost names = { λ w. [] };

    ghost does = { λ w f h u. DecidesLabels h.core u (bytes_in (decode_of w.first.word.now)) (bytes_in (decode_of w.second.word.now)) };

    ghost holds_back = { λ w. ⊥ };

    fn obey_under<H: Shelf, O: Sink>(
        &self,
        alloc: Global,
        v: &SafeView<'_>,
        shelf: &mut H,
        out: &mut O,
    ) -> Result<(), Stop> {
        put_verdict(alloc, v, self, out)
    }
}

/// Writes what two labels tell under a safe view.
pub fn decide<H: Shelf, O: Sink>(
    alloc: Global,
    words: &DecideWords<'_>,
    shelf: &mut H,
    out: &mut O,
) -> Result<(), Stop>
    ensures obeys { Obeys H.files H.readings H.faults H.at_last O.put_bytes O.faults O.at_last (words.now.spec.now ∷ words.now.view.now ∷ []) []
        (λ f. Decides (f words.now.spec.now) (f words.now.view.now) (bytes_in (decode_of words.now.first.word.now)) (bytes_in (decode_of words.now.second.word.now)))
        shelf.old shelf.new out.old out.new (end_after result) }
{
    under_view(alloc, words.spec, words.view, words, shelf, out)
}
