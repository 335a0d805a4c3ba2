// What is due of an export, put.
ghost use Rattle.std.specs.Prelude.{◌≡◌, ◌<◌, List, ℕ, ◌++◌, length, OnOk};
ghost use Rattle.wf_export.specs.Adds.{Adds, Writes};

use crate::fault::ExportFault;
use wf_io::{PIECE, Sink};
use wf_lines::Due;

/// Puts what is due. Where nothing is, nothing is put.
pub fn put_due<O: Sink>(due: &mut Due, out: &mut O) -> Result<(), ExportFault>
    ensures { Writes O.put_bytes O.faults O.at_last due.old out.old out.new result }
{
    match due.put(out) {
        Ok(()) => Ok(()),
        Err(_) => Err(ExportFault::WriteFault),
    }
}

/// Puts what is due, to which lines were added, where it is long. The lines are due then, or were put, and what is due is short.
pub fn pass_on<O: Sink>(due: &mut Due, out: &mut O) -> Result<(), ExportFault>
    ensures adds { (before lines : List ℕ) → due.old ≡ before ++ lines →
        Adds O.put_bytes O.faults O.at_last lines before due.new out.old out.new result }
    ensures short { OnOk result (length due.new < PIECE) }
{
    match due.pass_on(out) {
        Ok(()) => Ok(()),
        Err(_) => Err(ExportFault::WriteFault),
    }
}
