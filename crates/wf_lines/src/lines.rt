// The lines of a file, taken one after the other.
ghost use Rattle.std.specs.Prelude.{◌≡◌, ◌≤◌, ◌+◌, ℕ, List, [], ◌++◌, true, false, cond, None, Some, length, MatchResult, IfOk, IfErr, OnOk, IsErr};
ghost use Rattle.wf_io.specs.Told.{File, Rose, Appended};
ghost use Rattle.wf_io.specs.Readers.{Stands, left_in, IsReading, HasReadOnce};
ghost use Rattle.wf_lines.specs.LineStages.{AllTaken, OfLines, ClosesOrGoesOn, IsOneWay, IsClosedOneWay};
ghost use Rattle.wf_lines.specs.BegunLines.{BegunLine, begun_line, further, BeginsEach};
ghost use Rattle.wf_lines.specs.Taking.{IsDue, IsCut, IsCauseOf, IsWritingCauseOf, IsStoppedBy, IsStoppedAtEnd, IsStoppedAs, IsWanting, IsWritingFault, AreTaken, AreStopped, end_at};

use crate::due::Due;
use crate::fault::{Halt, LinesFault};
use crate::next::next_line;
use crate::taker::Taker;
use wf_io::{Failed, Lines, PIECE, Shelf, Sink};

/// Puts what is due, and behind it what was made last.
fn put_made<T: Taker, O: Sink>(taker: &T, due: &mut Due, out: &mut O) -> Result<(), Failed>
    ensures put { OnOk result (Appended (due.old ++ T.made taker.now) (O.put_bytes out.old) (O.put_bytes out.new)) }
    ensures begun { IsErr result → IsCut (due.old ++ T.made taker.now) (O.put_bytes out.old) (O.put_bytes out.new) }
    ensures same { OnOk result (O.faults out.new ≡ O.faults out.old) }
    ensures later { O.faults out.old ≤ O.faults out.new }
    ensures cause { IsErr result → Rose (O.faults out.old) (O.faults out.new) (O.at_last out.new) }
{
    due.add(out, taker.made())?;
    due.put(out)
}

/// Begins the line of a number, and its first piece is due.
fn begin_line<T: Taker, O: Sink>(
    taker: &mut T,
    number: u64,
    text: &[u8],
    due: &mut Due,
    out: &mut O,
) -> Result<(), LinesFault<T::Fault>>
    requires ready { T.is_ready taker.old }
    ensures ready { OnOk result (T.is_ready taker.new) }
    ensures known { (k : T.Known) → T.is_known taker.old k → T.is_known taker.new k }
    ensures left { OnOk result (T.left taker.old ≤ T.left taker.new) }
    ensures short { OnOk result (length due.new ≤ PIECE) }
    ensures within { OnOk result ((s : T.State) → T.is_at taker.old s → (piece : List ℕ) ×
        T.is_within taker.new (begun_line s number text.now piece) × IsDue (due.old ++ piece) due.new (O.put_bytes out.old) (O.put_bytes out.new)) }
    ensures stopped { IfErr result (λ f. (s : T.State) → T.is_at taker.old s →
        IsStoppedBy (T.stops s number text.now) (λ piece. T.begins (begun_line s number text.now piece)) T.end_of due.old f (O.put_bytes out.old) (O.put_bytes out.new)) }
    ensures fault { IfErr result (IsStoppedAs T.is_fault) }
    ensures memory { IfErr result (λ f. IsWanting T.end_of f → T.wants_memory) }
    ensures same { OnOk result (O.faults out.new ≡ O.faults out.old) }
    ensures later { O.faults out.old ≤ O.faults out.new }
    ensures cause { IfErr result (IsWritingCauseOf (O.faults out.old) (O.faults out.new) (O.at_last out.new)) }
{
    match taker.take(number, text) {
        Ok(()) => match due.add(out, taker.made()) {
            Ok(()) => Ok(()),
            Err(_) => Err(LinesFault::Halted(Halt::WriteFault)),
        },
        Err(fault) => match put_made(taker, due, out) {
            Ok(()) => Err(LinesFault::Stopped(fault)),
            Err(_) => Err(LinesFault::Halted(Halt::WriteFault)),
        },
    }
}

/// Makes one piece more of the line that is begun, which is due behind what is. False where the line is taken.
fn go_on<T: Taker, O: Sink>(
    taker: &mut T,
    due: &mut Due,
    out: &mut O,
) -> Result<bool, LinesFault<T::Fault>>
    requires ready { T.is_ready taker.old }
    ensures ready { OnOk result (T.is_ready taker.new) }
    ensures known { (k : T.Known) → T.is_known taker.old k → T.is_known taker.new k }
    ensures one { IfOk result (λ more. T.left taker.old ≡ T.left taker.new + cond more 1 0) }
    ensures short { OnOk result (length due.new ≤ PIECE) }
    ensures within { IfOk result (λ more. more ≡ true → (p : BegunLine T.State) → T.is_within taker.old p → (piece : List ℕ) ×
        T.is_within taker.new (further p piece) × IsDue (due.old ++ piece) due.new (O.put_bytes out.old) (O.put_bytes out.new)) }
    ensures taken { IfOk result (λ more. more ≡ false → (p : BegunLine T.State) → T.is_within taker.old p → (q : T.State) × (piece : List ℕ) ×
        T.takes p.state p.number p.text q (p.made ++ piece) × T.is_at taker.new q × IsDue (due.old ++ piece) due.new (O.put_bytes out.old) (O.put_bytes out.new)) }
    ensures stopped { IfErr result (λ f. (p : BegunLine T.State) → T.is_within taker.old p →
        IsStoppedBy (λ e piece. T.stops p.state p.number p.text e (p.made ++ piece)) (λ piece. T.begins (further p piece)) T.end_of due.old f (O.put_bytes out.old) (O.put_bytes out.new)) }
    ensures fault { IfErr result (IsStoppedAs T.is_fault) }
    ensures memory { IfErr result (λ f. IsWanting T.end_of f → T.wants_memory) }
    ensures same { OnOk result (O.faults out.new ≡ O.faults out.old) }
    ensures later { O.faults out.old ≤ O.faults out.new }
    ensures cause { IfErr result (IsWritingCauseOf (O.faults out.old) (O.faults out.new) (O.at_last out.new)) }
{
    match taker.more() {
        Ok(more) => match due.add(out, taker.made()) {
            Ok(()) => Ok(more),
            Err(_) => Err(LinesFault::Halted(Halt::WriteFault)),
        },
        Err(fault) => match put_made(taker, due, out) {
            Ok(()) => Err(LinesFault::Stopped(fault)),
            Err(_) => Err(LinesFault::Halted(Halt::WriteFault)),
        },
    }
}

/// Takes the line of a number. Each piece that it makes is due before the next is made, so what is due stays within the room for it.
fn take_line<T: Taker, O: Sink>(
    taker: &mut T,
    number: u64,
    text: &[u8],
    due: &mut Due,
    out: &mut O,
) -> Result<(), LinesFault<T::Fault>>
    requires ready { T.is_ready taker.old }
    ensures ready { OnOk result (T.is_ready taker.new) }
    ensures known { (k : T.Known) → T.is_known taker.old k → T.is_known taker.new k }
    ensures taken { OnOk result ((s : T.State) → T.is_at taker.old s → (q : T.State) × (piece : List ℕ) ×
        T.takes s number text.now q piece × T.is_at taker.new q × IsDue (due.old ++ piece) due.new (O.put_bytes out.old) (O.put_bytes out.new)) }
    ensures short { OnOk result (length due.new ≤ PIECE) }
    ensures stopped { IfErr result (λ f. (s : T.State) → T.is_at taker.old s →
        IsStoppedBy (T.stops s number text.now) (λ piece. T.begins (begun_line s number text.now piece)) T.end_of due.old f (O.put_bytes out.old) (O.put_bytes out.new)) }
    ensures fault { IfErr result (IsStoppedAs T.is_fault) }
    ensures memory { IfErr result (λ f. IsWanting T.end_of f → T.wants_memory) }
    ensures same { OnOk result (O.faults out.new ≡ O.faults out.old) }
    ensures later { O.faults out.old ≤ O.faults out.new }
    ensures cause { IfErr result (IsWritingCauseOf (O.faults out.old) (O.faults out.new) (O.at_last out.new)) }
{
    if let Err(fault) = begin_line(taker, number, text, due, out) {
        return Err(fault);
    }
    loop {
        match go_on(taker, due, out) {
            Ok(true) => {}
            Ok(false) => return Ok(()),
            Err(fault) => return Err(fault),
        }
    }
}

/// Takes the end of a whole file, and puts what is due and what this makes.
fn take_end<T: Taker, O: Sink>(
    taker: &mut T,
    due: &mut Due,
    out: &mut O,
) -> Result<(), LinesFault<T::Fault>>
    requires ready { T.is_ready taker.old }
    ensures known { (k : T.Known) → T.is_known taker.old k → T.is_known taker.new k }
    ensures finished { OnOk result ((s : T.State) → T.is_at taker.old s →
        (last : List ℕ) × T.finishes s last × T.is_at taker.new s × Appended (due.old ++ last) (O.put_bytes out.old) (O.put_bytes out.new)) }
    ensures stopped { IfErr result (λ f. (s : T.State) → T.is_at taker.old s →
        IsStoppedAtEnd T.finishes T.stops_at_end T.end_of s due.old f (O.put_bytes out.old) (O.put_bytes out.new)) }
    ensures fault { IfErr result (IsStoppedAs T.is_fault) }
    ensures memory { IfErr result (λ f. IsWanting T.end_of f → T.wants_memory) }
    ensures same { OnOk result (O.faults out.new ≡ O.faults out.old) }
    ensures later { O.faults out.old ≤ O.faults out.new }
    ensures cause { IfErr result (IsWritingCauseOf (O.faults out.old) (O.faults out.new) (O.at_last out.new)) }
{
    let end = taker.finish();
    let put = put_made(taker, due, out);
    match end {
        Ok(()) => match put {
            Ok(()) => Ok(()),
            Err(_) => Err(LinesFault::Halted(Halt::WriteFault)),
        },
        Err(fault) => match put {
            Ok(()) => Err(LinesFault::Stopped(fault)),
            Err(_) => Err(LinesFault::Halted(Halt::WriteFault)),
        },
    }
}

/// Takes the lines of a file one after the other, and its end, and gives the number of lines. What they make is due piece by piece, and put before each read of the file, before a refusal, and at the end.
///
/// Cost: linear in the bytes of the file, in what is put, and that of taking each line. Takes no memory of its own.
pub fn take_lines<T: Taker, H: Shelf, O: Sink>(
    taker: &mut T,
    lines: &mut Lines<'_>,
    due: &mut Due,
    shelf: &mut H,
    out: &mut O,
) -> Result<u64, LinesFault<T::Fault>>
    requires live { lines.old.live ≡ true }
    requires ready { T.is_ready taker.old }
    requires none { due.old ≡ [] }
    requires reading { IsReading lines.old (H.readings shelf.old) }
    ensures once { HasReadOnce lines.old (H.readings shelf.old) (H.readings shelf.new) }
    ensures taken { IfOk result (λ n. (f : List ℕ → File) → H.files shelf.old ≡ Some f →
        Stands (f lines.old.name) lines.old → (s : T.State) → T.is_at taker.old s →
        AreTaken (AllTaken T.ends T.takes T.stops s (left_in (f lines.old.name) lines.old).lines) T.finishes
        (T.is_at taker.new) (left_in (f lines.old.name) lines.old).tail (O.put_bytes out.old) (O.put_bytes out.new)) }
    ensures count { IfOk result (λ n. (f : List ℕ → File) → H.files shelf.old ≡ Some f →
        Stands (f lines.old.name) lines.old → n ≡ length (left_in (f lines.old.name) lines.old).lines) }
    ensures stopped { IfErr result (λ fault. (f : List ℕ → File) → H.files shelf.old ≡ Some f → Stands (f lines.old.name) lines.old →
        (s : T.State) → T.is_at taker.old s → IsOneWay T.is_sound T.takes T.stops → BeginsEach T.is_sound T.takes T.stops T.begins → IsClosedOneWay T.is_sound T.finishes T.stops_at_end → T.is_sound s →
        let left = left_in (f lines.old.name) lines.old in
        AreStopped (OfLines T.ends T.takes T.stops T.stops_at_end s left.lines left.tail)
        (OfLines T.ends T.takes T.stops (ClosesOrGoesOn T.finishes T.stops_at_end) s left.lines left.tail)
        (end_at T.ends T.end_of fault) (IsWritingFault fault) (O.put_bytes out.old) (O.put_bytes out.new)) }
    ensures known { (k : T.Known) → T.is_known taker.old k → T.is_known taker.new k }
    ensures fault { IfErr result (IsStoppedAs T.is_fault) }
    ensures memory { IfErr result (λ fault. IsWanting T.end_of fault → T.wants_memory) }
    ensures files { H.files shelf.new ≡ H.files shelf.old }
    ensures later { H.faults shelf.old ≤ H.faults shelf.new }
    ensures put_later { O.faults out.old ≤ O.faults out.new }
    ensures same { OnOk result (H.faults shelf.new ≡ H.faults shelf.old) }
    ensures put_same { OnOk result (O.faults out.new ≡ O.faults out.old) }
    ensures cause { IfErr result (IsCauseOf (H.faults shelf.old) (H.faults shelf.new) (H.at_last shelf.new)
        (O.faults out.old) (O.faults out.new) (O.at_last out.new)) }
{
    let mut taken = 0;
    loop {
        match next_line(lines, due, shelf, out) {
            Ok(true) => {}
            Ok(false) => break,
            Err(halt) => return Err(LinesFault::Halted(halt)),
        }
        let number = lines.line();
        taker.look_ahead(lines.window());
        if let Err(fault) = take_line(taker, number, lines.held(), due, out) {
            return Err(fault);
        }
        // Each line has a number of its own.
        prove!(taken < number);
        taken += 1;
    }
    match take_end(taker, due, out) {
        Ok(()) => Ok(taken),
        Err(fault) => Err(fault),
    }
}
