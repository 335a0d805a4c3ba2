// Answers from the entries of a label file.
ghost use Rattle.std.specs.Prelude.{◌≡◌, ◌≢◌, ◌<◌, ◌≤◌, ℕ, true, List, [], Some, length, IfOk, IfErr, OnOk};
ghost use Rattle.wf_model.specs.View.{View};
ghost use Rattle.label_model.specs.Files.{Entry};
ghost use Rattle.wf_io.specs.Told.{File};
ghost use Rattle.wf_io.specs.Lines.{lines_in};
ghost use Rattle.wf_io.specs.Readings.{IsReadOnce};
ghost use Rattle.wf_io.specs.Readers.{Stands, left_in, IsReading, HasReadOnce};
ghost use Rattle.label_file.specs.Stored.{AreHeldOf, IsStoreFor};
ghost use Rattle.wf_vlabel.specs.Seen.{IsLabelOfView};
ghost use Rattle.wf_decode.specs.Reading.{most_legs};
ghost use Rattle.wf_query.specs.Answers.{IsAnswerText};
ghost use Rattle.wf_query.specs.Known.{IsWordOfLabels, LabelsKnown};
ghost use Rattle.wf_query.specs.Lines.{ArePut, IsCauseOf, FailsToWrite, ended_by};

use crate::ahead::look_ahead;
use crate::answerer::Answerer;
use crate::answers::Answer;
use crate::batching::{BatchFault, answer_left};
use crate::deciding::answer_guessed;
use crate::query::Query;
use bool_mat::Steps;
use label_file::{Guesses, Store};
use std::alloc::{AllocError, Global};
use std::marker::Brand;
use std::sync::ledger::{Blank, Ledger};
use wf_decode::Scratch;
use wf_io::{Lines, Shelf, Sink};
use wf_lines::Due;
use wf_vlabel::ViewLabel;

/// The entries of a label file with the label of a view, room for decisions, a count of their row products, and the entries that were guessed ahead.
struct Labels<'q, 'b, 'g, L: Ledger> {
    store: &'q Store<'b>,
    label: &'q ViewLabel<'g>,
    scratch: &'q mut Scratch,
    steps: Steps<L>,
    guesses: Guesses,
}

impl<L: Ledger> Answerer for Labels<'_, '_, '_, L> {
    ghost is_ready = { λ s. IsStoreFor s.label.now.grammar s.store.now × (most_legs s.label.now.grammar ≤ s.scratch.now) };

    ghost Known = { LabelsKnown };

    ghost is_known = { λ s k. (s.label.now ≡ k.label) × (s.store.now ≡ k.held) × (s.scratch.ghost_name ≡ k.place) × (s.scratch.now ≡ k.room) };

    ghost words = { IsWordOfLabels };

    ghost wants_memory = { ⊥ };

    fn look_ahead(&mut self, text: &[u8]) {
        look_ahead(self.store, &mut self.guesses, text);
    }

    fn answer(&mut self, query: &Query<'_>) -> Result<Answer, AllocError> {
        Ok(answer_guessed(
            self.store,
            &mut self.guesses,
            self.label,
            self.scratch,
            query,
            &mut self.steps,
        ))
    }
}

/// Answers the queries of the lines that are left of a file, with a counter of row products of its own.
fn batch_counted<L: Ledger, H: Shelf, O: Sink>(
    blank: Blank,
    lines: &mut Lines<'_>,
    due: &mut Due,
    shelf: &mut H,
    store: &Store<'_>,
    vl: &ViewLabel<'_>,
    scratch: &mut Scratch,
    out: &mut O,
) -> Result<u64, BatchFault>
    requires name { blank.name ≡ L.name }
    requires parts { blank.parts ≡ L.parts }
    requires some { 0 < blank.parts }
    requires live { lines.old.live ≡ true }
    requires none { due.old ≡ [] }
    requires reading { IsReading lines.old (H.readings shelf.old) }
    requires store { IsStoreFor vl.now.grammar store.now }
    requires room { most_legs vl.now.grammar ≤ scratch.old }
    ensures once { HasReadOnce lines.old (H.readings shelf.old) (H.readings shelf.new) }
    ensures put { (f : List ℕ → File) → H.files shelf.old ≡ Some f → Stands (f lines.old.name) lines.old
        → (u : View) (entries : List Entry) → IsLabelOfView vl.now u → AreHeldOf vl.now.grammar entries store.now
        → ArePut (IsAnswerText vl.now.grammar u entries) (left_in (f lines.old.name) lines.old) (ended_by result) (FailsToWrite result) (O.put_bytes out.old) (O.put_bytes out.new) }
    ensures count { IfOk result (λ n. (f : List ℕ → File) → H.files shelf.old ≡ Some f → Stands (f lines.old.name) lines.old
        → n ≡ length (left_in (f lines.old.name) lines.old).lines) }
    ensures memory { IfErr result (λ fault. fault ≢ BatchFault.NoMemory) }
    ensures room { scratch.new ≡ scratch.old }
    ensures files { H.files shelf.new ≡ H.files shelf.old }
    ensures later { H.faults shelf.old ≤ H.faults shelf.new }
    ensures put_later { O.faults out.old ≤ O.faults out.new }
    ensures same { OnOk result (H.faults shelf.new ≡ H.faults shelf.old) }
    ensures put_same { OnOk result (O.faults out.new ≡ O.faults out.old) }
    ensures cause { IfErr result (IsCauseOf (H.faults shelf.old) (H.faults shelf.new) (H.at_last shelf.new)
        (O.faults out.old) (O.faults out.new) (O.at_last out.new)) }
{
    let mut labels = Labels {
        store,
        label: vl,
        scratch,
        steps: Steps::<L>::new(blank),
        guesses: Guesses::new(),
    };
    let answered = answer_left(&mut labels, lines, due, shelf, out);
    // What was lent is given back, so that its value is known.
    let Labels {
        store: _,
        label: _,
        scratch: lent,
        steps: _,
        guesses: _,
    } = labels;
    let _ = lent;
    answered
}

/// Answers the queries of all lines of the file `name`, from the entries of a label file and the label of a view, and gives their number. The answers that are due are put before each read of the file, before a refusal, and at the end.
///
/// Memory is taken before the first read alone, so it is not wanting once an answer was put.
///
/// Cost: linear in the bytes of the file, and that of `answer` for each line.
pub fn batch<H: Shelf, O: Sink>(
    alloc: Global,
    shelf: &mut H,
    name: &str,
    store: &Store<'_>,
    vl: &ViewLabel<'_>,
    scratch: &mut Scratch,
    out: &mut O,
) -> Result<u64, BatchFault>
    requires store { IsStoreFor vl.now.grammar store.now }
    requires room { most_legs vl.now.grammar ≤ scratch.old }
    ensures once { IsReadOnce name.now (H.readings shelf.old) (H.readings shelf.new) }
    ensures put { (f : List ℕ → File) → H.files shelf.old ≡ Some f
        → (u : View) (entries : List Entry) → IsLabelOfView vl.now u → AreHeldOf vl.now.grammar entries store.now
        → ArePut (IsAnswerText vl.now.grammar u entries) (lines_in (f name.now)) (ended_by result) (FailsToWrite result) (O.put_bytes out.old) (O.put_bytes out.new) }
    ensures count { IfOk result (λ n. (f : List ℕ → File) → H.files shelf.old ≡ Some f → n ≡ length (lines_in (f name.now)).lines) }
    ensures untouched { IfErr result (λ fault. fault ≡ BatchFault.NoMemory → O.put_bytes out.new ≡ O.put_bytes out.old) }
    ensures room { scratch.new ≡ scratch.old }
    ensures files { H.files shelf.new ≡ H.files shelf.old }
    ensures later { H.faults shelf.old ≤ H.faults shelf.new }
    ensures put_later { O.faults out.old ≤ O.faults out.new }
    ensures same { OnOk result (H.faults shelf.new ≡ H.faults shelf.old) }
    ensures put_same { OnOk result (O.faults out.new ≡ O.faults out.old) }
    ensures cause { IfErr result (IsCauseOf (H.faults shelf.old) (H.faults shelf.new) (H.at_last shelf.new)
        (O.faults out.old) (O.faults out.new) (O.at_last out.new)) }
{
    let Ok(mut lines) = Lines::open(alloc, name) else {
        return Err(BatchFault::NoMemory);
    };
    let Ok(mut due) = Due::new(alloc) else {
        return Err(BatchFault::NoMemory);
    };
    batch_counted::<Brand, H, O>(
        Blank::new(1),
        &mut lines,
        &mut due,
        shelf,
        store,
        vl,
        scratch,
        out,
    )
}
