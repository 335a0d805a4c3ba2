// CHAIN, as a stage of a command.
ghost use Rattle.std.specs.Prelude.{◌≡◌, ℕ, List, [], ◌∷◌, true, false};
ghost use Rattle.wf_io.specs.Lines.{lines_in};
ghost use Rattle.wf_io.specs.Readers.{IsReading};
ghost use Rattle.wf_message.specs.Endings.{end_after};
ghost use Rattle.wf_stage.specs.Ends.{IsWritten};
ghost use Rattle.wf_stage.specs.Promises.{ReadsLines, Obeys, Writes};
ghost use Rattle.wf_chain.specs.ViewedRuns.{grammar_in, view_in, events_in};
ghost use Rattle.wf_reason.specs.HandedIn.{ChainStage, StopsLines};
ghost use Rattle.wf_reason.specs.Checked.{IsSaidOf, checked_text};
ghost use Rattle.wf_reason.specs.Told.{TellsChecked};

use crate::checked::Checked;
use crate::checking::Checking;
use crate::fault::chain_stop;
use crate::standing::Standing;
use crate::turn::Turn;
use std::alloc::Global;
use wf_chain::ViewedRun;
use wf_io::{Lines, PlainSink, Shelf, Sink};
use wf_lines::{Due, take_lines};
use wf_message::Stop;
use wf_stage::put_text;

/// What is said of the lines of a file with a chain, which was opened.
fn chain_of_lines<H: Shelf>(
    run: &ViewedRun<'_>,
    lines: &mut Lines<'_>,
    due: &mut Due,
    shelf: &mut H,
) -> Result<Checked, Stop>
    requires live { lines.old.live ≡ true }
    requires none { due.old ≡ [] }
    requires reading { IsReading lines.old (H.readings shelf.old) }
    ensures reads { (name : List ℕ) → lines.old
        ≡ record { name = name; place = 0; kept = []; number = 1; line = 0; held = []; live = true; wants = false; ended = false } →
        ReadsLines H.files H.readings H.faults H.at_last name (TellsChecked run.now) checked_text StopsLines shelf.old shelf.new result }
{
    let mut checking = Checking {
        run,
        turn: Turn::Item,
        standing: Standing::Begun,
        last: 0,
    };
    let mut out = PlainSink::new();
    match take_lines(&mut checking, lines, due, shelf, &mut out) {
        Ok(_) => Ok(checking.standing.checked(run, checking.last)),
        Err(fault) => Err(chain_stop(fault)),
    }
}

/// What is said of the lines of a file: whether they are a chain of a run under a view.
///
/// Refused at the first line that is too long or has not the form of its turn, with its number; or in the line in which the file goes on past the most bytes that are read of it. `NoMemory` comes before the first line.
///
/// Cost: linear in the bytes; a look-up for each line, and one step for each entry and exit on the way. Takes memory for one line.
pub fn chain_stage<H: Shelf>(
    alloc: Global,
    run: &ViewedRun<'_>,
    shelf: &mut H,
    name: &str,
) -> Result<Checked, Stop>
    ensures reads { ReadsLines H.files H.readings H.faults H.at_last name.now (TellsChecked run.now) checked_text StopsLines shelf.old shelf.new result }
{
    let Ok(mut lines) = Lines::open(alloc, name) else {
        return Err(Stop::NoMemory);
    };
    let Ok(mut due) = Due::new(alloc) else {
        return Err(Stop::NoMemory);
    };
    chain_of_lines(run, &mut lines, &mut due, shelf)
}

/// Puts what is said of lines.
fn put_checked<O: Sink>(alloc: Global, checked: Checked, out: &mut O) -> Result<(), Stop>
    ensures writes { Writes O.put_bytes O.faults O.at_last [] (IsWritten (checked_text checked)) out.old out.new (end_after result) }
{
    let Ok(text) = checked.text(alloc) else {
        return Err(Stop::NoMemory);
    };
    put_text(out, &text)
}

/// Says of the lines of a file whether they are a chain of a run under a view: `yes`, or `no` with the number of the first wrong line.
///
/// A refusal comes before any answer. Cost: that of `chain_stage`.
pub fn verify_chain<H: Shelf, O: Sink>(
    alloc: Global,
    run: &ViewedRun<'_>,
    shelf: &mut H,
    name: &str,
    out: &mut O,
) -> Result<(), Stop>
    ensures obeys { Obeys H.files H.readings H.faults H.at_last O.put_bytes O.faults O.at_last (name.now ∷ []) []
        (λ f. ChainStage (lines_in (f name.now)) (IsSaidOf (grammar_in run.now) (view_in run.now) (events_in run.now)))
        shelf.old shelf.new out.old out.new (end_after result) }
{
    // One text is said of lines, by whatever full assignment of the view.
    let _run = run.run();
    let checked = chain_stage(alloc, run, shelf, name)?;
    put_checked(alloc, checked, out)
}
