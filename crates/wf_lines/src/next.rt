// The next line of a file, before which what is due is put.
ghost use Rattle.std.specs.Prelude.{◌≡◌, ◌<◌, ◌≤◌, ℕ, List, [], true, Some, MatchResult, IfOk, IfErr, OnOk};
ghost use Rattle.wf_io.specs.Told.{File, Rose, Appended};
ghost use Rattle.wf_io.specs.Readers.{Stands, left_in, left_over, Advances, IsReading, GoesOnReading, HasReadOnce};
ghost use Rattle.wf_lines.specs.Taking.{IsDue, IsPutAt, IsCauseOfHalt, Halts, halt_at};

use crate::due::Due;
use crate::fault::Halt;
use wf_io::{LineFault, Lines, Shelf, Sink};

/// Puts what is due.
fn put_due<O: Sink>(due: &mut Due, out: &mut O) -> Result<(), Halt>
    ensures put { OnOk result (Appended due.old (O.put_bytes out.old) (O.put_bytes out.new)) }
    ensures none { OnOk result (due.new ≡ []) }
    ensures halt { IfErr result (λ h. h ≡ Halt.WriteFault) }
    ensures begun { IfErr result (λ h. IsPutAt h due.old (O.put_bytes out.old) (O.put_bytes out.new)) }
    ensures same { OnOk result (O.faults out.new ≡ O.faults out.old) }
    ensures later { O.faults out.old ≤ O.faults out.new }
    ensures cause { IfErr result (λ h. Rose (O.faults out.old) (O.faults out.new) (O.at_last out.new)) }
{
    match due.put(out) {
        Ok(()) => Ok(()),
        Err(_) => Err(Halt::WriteFault),
    }
}

/// The halt that a fault of lines is, at the line of a number.
fn halt_of(fault: LineFault, line: u64) -> Halt
    ensures { result ≡ halt_at line fault }
{
    match fault {
        LineFault::LineTooLong => Halt::LineTooLong { line },
        LineFault::FileTooLong => Halt::FileTooLong { line },
        LineFault::Fault => Halt::ReadFault,
    }
}

/// Goes on to the next line of a file, and tells whether there is one. What is due is put before each read, before a refusal, and at the end of the file.
#[inline]
pub(crate) fn next_line<H: Shelf, O: Sink>(
    lines: &mut Lines<'_>,
    due: &mut Due,
    shelf: &mut H,
    out: &mut O,
) -> Result<bool, Halt>
    requires live { lines.old.live ≡ true }
    requires reading { IsReading lines.old (H.readings shelf.old) }
    ensures reading { OnOk result (GoesOnReading lines.old lines.new (H.readings shelf.old) (H.readings shelf.new)) }
    ensures once { HasReadOnce lines.old (H.readings shelf.old) (H.readings shelf.new) }
    ensures lines { (f : List ℕ → File) → H.files shelf.old ≡ Some f → Stands (f lines.old.name) lines.old →
        MatchResult result (λ lent. Advances lent (left_in (f lines.old.name) lines.old) lines.new (left_in (f lines.old.name) lines.new))
        (Halts (left_in (f lines.old.name) lines.old)) }
    ensures stands { OnOk result ((f : List ℕ → File) → H.files shelf.old ≡ Some f →
        Stands (f lines.old.name) lines.old → Stands (f lines.old.name) lines.new) }
    ensures name { lines.new.name ≡ lines.old.name }
    ensures live { OnOk result (lines.new.live ≡ true) }
    ensures less { IfOk result (λ lent. lent ≡ true → left_over lines.new < left_over lines.old) }
    ensures later_line { IfOk result (λ lent. lent ≡ true → lines.old.line < lines.new.line) }
    ensures due { OnOk result (IsDue due.old due.new (O.put_bytes out.old) (O.put_bytes out.new)) }
    ensures put { IfErr result (λ h. IsPutAt h due.old (O.put_bytes out.old) (O.put_bytes out.new)) }
    ensures files { H.files shelf.new ≡ H.files shelf.old }
    ensures later { H.faults shelf.old ≤ H.faults shelf.new }
    ensures put_later { O.faults out.old ≤ O.faults out.new }
    ensures same { OnOk result (H.faults shelf.new ≡ H.faults shelf.old) }
    ensures put_same { OnOk result (O.faults out.new ≡ O.faults out.old) }
    ensures cause { IfErr result (IsCauseOfHalt (H.faults shelf.old) (H.faults shelf.new)
        (H.at_last shelf.new) (O.faults out.old) (O.faults out.new) (O.at_last out.new)) }
{
    loop {
        match lines.seek() {
            Ok(true) => return Ok(true),
            Ok(false) => {}
            Err(fault) => {
                return match put_due(due, out) {
                    Ok(()) => Err(halt_of(fault, lines.line())),
                    Err(halt) => Err(halt),
                };
            }
        }
        if let Err(halt) = put_due(due, out) {
            return Err(halt);
        }
        if !lines.wants() {
            return Ok(false);
        }
        if let Err(fault) = lines.fill(shelf) {
            return Err(halt_of(fault, lines.line()));
        }
    }
}
