// Why lines of queries end a command.
ghost use Rattle.std.specs.Prelude.{◌≡◌};
ghost use Rattle.wf_message.specs.Endings.{end_of, end_after};
ghost use Rattle.wf_asking.specs.Batched.{end_at, end_by};

use wf_inputs::{QUERIES, named};
use wf_message::{Stop, refused_line};
use wf_query::BatchFault;

/// The stop at a fault of lines of queries.
fn stop_at(fault: BatchFault) -> Stop
    ensures { end_of result ≡ end_at fault }
{
    match fault {
        BatchFault::LineWrong { line } => refused_line(QUERIES, line, named(b"LineWrong")),
        BatchFault::LineTooLong { line } => refused_line(QUERIES, line, named(b"LineTooLong")),
        BatchFault::FileTooLong { line } => refused_line(QUERIES, line, named(b"FileTooLong")),
        BatchFault::ReadFault => Stop::ReadFault { place: QUERIES },
        BatchFault::WriteFault => Stop::WriteFault,
        BatchFault::NoMemory => Stop::NoMemory,
    }
}

/// How lines of queries end a command: it goes on where all of them were answered.
pub fn queries_end(answered: Result<u64, BatchFault>) -> Result<(), Stop>
    ensures { end_after result ≡ end_by answered }
{
    match answered {
        Ok(_) => Ok(()),
        Err(fault) => Err(stop_at(fault)),
    }
}
