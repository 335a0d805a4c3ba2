// Lines of queries, answered one by one.
ghost use Rattle.std.specs.Prelude.{◌≡◌, ◌≤◌, ℕ, true, List, [], Some, length, IfOk, IfErr, OnOk};
ghost use Rattle.wf_io.specs.Told.{File};
ghost use Rattle.wf_io.specs.Lines.{lines_in};
ghost use Rattle.wf_io.specs.Readings.{IsReadOnce};
ghost use Rattle.wf_io.specs.Readers.{Stands, left_in, IsReading, HasReadOnce};
ghost use Rattle.wf_query.specs.Lines.{ArePut, IsCauseOf, IsOneWord, FailsToWrite, ended_by};
ghost use Rattle.wf_query.specs.Answering.{fault_by};

use crate::answerer::Answerer;
use crate::answering::{Answering, QueryFault};
use std::alloc::Global;
use wf_io::{Lines, Shelf, Sink};
use wf_lines::{Due, Halt, LinesFault, take_lines};

/// Why the answering of the lines of a file ends before its end. The first in the order of the file is told.
#[derive(Clone, Copy, Debug, PartialEq, Eq)]
pub enum BatchFault {
    /// The line of this number, from 1, is not two item names with one space between.
    LineWrong { line: u64 },
    /// The line of this number has more than 65,536 bytes.
    LineTooLong { line: u64 },
    /// The file has more than 2^30 bytes, and the line of this number does not end within the first 2^30 of them.
    FileTooLong { line: u64 },
    /// Reading failed, and the shelf's count of faults rose.
    ReadFault,
    /// Writing failed, and the sink's count of faults rose.
    WriteFault,
    /// Memory was refused.
    NoMemory,
}

/// The fault that ends the answering, where lines ended so.
fn fault_of(fault: LinesFault<QueryFault>) -> BatchFault
    ensures { result ≡ fault_by fault }
{
    match fault {
        LinesFault::Stopped(QueryFault::Wrong { line }) => BatchFault::LineWrong { line },
        LinesFault::Stopped(QueryFault::NoMemory) => BatchFault::NoMemory,
        LinesFault::Halted(Halt::LineTooLong { line }) => BatchFault::LineTooLong { line },
        LinesFault::Halted(Halt::FileTooLong { line }) => BatchFault::FileTooLong { line },
        LinesFault::Halted(Halt::ReadFault) => BatchFault::ReadFault,
        LinesFault::Halted(Halt::WriteFault) => BatchFault::WriteFault,
    }
}

/// Answers the queries of the lines that are left of a file, one line each, and gives their number. The answers that are due are put before each read of the file, before a refusal, and at the end.
pub(crate) fn answer_left<A: Answerer, H: Shelf, O: Sink>(
    answerer: &mut A,
    lines: &mut Lines<'_>,
    due: &mut Due,
    shelf: &mut H,
    out: &mut O,
) -> Result<u64, BatchFault>
    requires ready { A.is_ready answerer.old }
    requires live { lines.old.live ≡ true }
    requires none { due.old ≡ [] }
    requires reading { IsReading lines.old (H.readings shelf.old) }
    ensures once { HasReadOnce lines.old (H.readings shelf.old) (H.readings shelf.new) }
    ensures put { (f : List ℕ → File) → H.files shelf.old ≡ Some f → Stands (f lines.old.name) lines.old
        → (k : A.Known) → A.is_known answerer.old k → IsOneWord (A.words k)
        → ArePut (A.words k) (left_in (f lines.old.name) lines.old) (ended_by result) (FailsToWrite result) (O.put_bytes out.old) (O.put_bytes out.new) }
    ensures count { IfOk result (λ n. (f : List ℕ → File) → H.files shelf.old ≡ Some f → Stands (f lines.old.name) lines.old
        → n ≡ length (left_in (f lines.old.name) lines.old).lines) }
    ensures memory { IfErr result (λ fault. fault ≡ BatchFault.NoMemory → A.wants_memory) }
    ensures ready { (k : A.Known) → A.is_known answerer.old k → A.is_ready answerer.new }
    ensures known { (k : A.Known) → A.is_known answerer.old k → A.is_known answerer.new k }
    ensures files { H.files shelf.new ≡ H.files shelf.old }
    ensures later { H.faults shelf.old ≤ H.faults shelf.new }
    ensures put_later { O.faults out.old ≤ O.faults out.new }
    ensures same { OnOk result (H.faults shelf.new ≡ H.faults shelf.old) }
    ensures put_same { OnOk result (O.faults out.new ≡ O.faults out.old) }
    ensures cause { IfErr result (IsCauseOf (H.faults shelf.old) (H.faults shelf.new) (H.at_last shelf.new)
        (O.faults out.old) (O.faults out.new) (O.at_last out.new)) }
{
    let mut answering = Answering {
        answerer,
        made: b"",
    };
    let taken = take_lines(&mut answering, lines, due, shelf, out);
    // What was lent is given back, so that its value is known.
    let Answering {
        answerer: lent,
        made: _,
    } = answering;
    let _ = lent;
    match taken {
        Ok(count) => Ok(count),
        Err(fault) => Err(fault_of(fault)),
    }
}

/// Answers the queries of all lines of the file `name`, one line each, and gives their number. The answers that are due are put before each read of the file, before a refusal, and at the end.
///
/// All memory but that of the answers is taken before the first read. So it is not wanting once an answer was put, where an answer wants none.
///
/// Cost: linear in the bytes of the file, and that of an answer for each line.
pub fn answer_lines<A: Answerer, H: Shelf, O: Sink>(
    alloc: Global,
    answerer: &mut A,
    shelf: &mut H,
    name: &str,
    out: &mut O,
) -> Result<u64, BatchFault>
    requires { A.is_ready answerer.old }
    ensures once { IsReadOnce name.now (H.readings shelf.old) (H.readings shelf.new) }
    ensures put { (f : List ℕ → File) → H.files shelf.old ≡ Some f → (k : A.Known) → A.is_known answerer.old k → IsOneWord (A.words k)
        → ArePut (A.words k) (lines_in (f name.now)) (ended_by result) (FailsToWrite result) (O.put_bytes out.old) (O.put_bytes out.new) }
    ensures count { IfOk result (λ n. (f : List ℕ → File) → H.files shelf.old ≡ Some f → n ≡ length (lines_in (f name.now)).lines) }
    ensures untouched { ¬ A.wants_memory → IfErr result (λ fault. fault ≡ BatchFault.NoMemory → O.put_bytes out.new ≡ O.put_bytes out.old) }
    ensures ready { (k : A.Known) → A.is_known answerer.old k → A.is_ready answerer.new }
    ensures known { (k : A.Known) → A.is_known answerer.old k → A.is_known answerer.new k }
    ensures files { H.files shelf.new ≡ H.files shelf.old }
    ensures later { H.faults shelf.old ≤ H.faults shelf.new }
    ensures put_later { O.faults out.old ≤ O.faults out.new }
    ensures same { OnOk result (H.faults shelf.new ≡ H.faults shelf.old) }
    ensures put_same { OnOk result (O.faults out.new ≡ O.faults out.old) }
    ensures cause { IfErr result (IsCauseOf (H.faults shelf.old) (H.faults shelf.new) (H.at_last shelf.new)
        (O.faults out.old) (O.faults out.new) (O.at_last out.new)) }
{
    let Ok(mut lines) = Lines::open(alloc, name) else {
        return Err(BatchFault::NoMemory);
    };
    let Ok(mut due) = Due::new(alloc) else {
        return Err(BatchFault::NoMemory);
    };
    answer_left(answerer, &mut lines, &mut due, shelf, out)
}
