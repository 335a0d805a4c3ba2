// The line that err gets.
ghost use Rattle.std.specs.Prelude.{◌≡◌, ◌++◌, Some, codes};
ghost use Rattle.wf_message.specs.Endings.{end_of, end_by, status_of, where_of, line_of, Refused, ReadFault};
ghost use Rattle.wf_message.specs.Refusals.{refusal_text};
ghost use Rattle.wf_message.specs.Puts.{IsPut, Puts};

use crate::ending::{Ending, Place, Stop};
use crate::pieces::{put, put_numbered, put_two};
use crate::refusal::Refusal;
use crate::status::Status;
use crate::told::put_refusal;
use wf_io::{Failed, Sink};

/// The status of a stop.
fn status_at(stop: &Stop) -> Status
    ensures { result ≡ status_of (end_of stop.now) }
{
    match stop {
        Stop::Refused { .. } => Status::Refused,
        Stop::ReadFault { .. } => Status::ReadFault,
        Stop::WriteFault => Status::WriteFault,
        Stop::NoMemory => Status::NoMemory,
    }
}

/// The status of an ending.
pub fn status_of(ending: &Ending) -> Status
    ensures { result ≡ status_of (end_by ending.now) }
{
    match ending {
        Ending::Done => Status::Done,
        Ending::Usage => Status::Usage,
        Ending::Stopped { stop } => status_at(stop),
    }
}

fn put_read_fault<E: Sink>(err: &mut E, place: Place) -> Result<(), Failed>
    ensures { Puts E.put_bytes E.faults E.at_last (line_of (ReadFault place.word.now)) err.old err.new result }
{
    put(err, b"fault: reading ")?;
    put_two(err, place.word, b"\n")
}

/// Puts a refusal and the end of its line.
fn put_cause<E: Sink>(err: &mut E, refusal: &Refusal) -> Result<(), Failed>
    ensures { Puts E.put_bytes E.faults E.at_last (codes ": " ++ (refusal_text refusal.now ++ codes "\n")) err.old err.new result }
{
    put(err, b": ")?;
    put_refusal(err, refusal)?;
    put(err, b"\n")
}

fn put_line_of<E: Sink>(err: &mut E, place: Place, number: u64) -> Result<(), Failed>
    ensures { Puts E.put_bytes E.faults E.at_last (where_of place.word.now (Some number)) err.old err.new result }
{
    put(err, place.word)?;
    put_numbered(err, b" line ", number)
}

/// Puts what a refusal is about: a file or a label, or a line of a file.
fn put_where<E: Sink>(err: &mut E, place: Place, line: Option<u64>) -> Result<(), Failed>
    ensures { Puts E.put_bytes E.faults E.at_last (where_of place.word.now line) err.old err.new result }
{
    match line {
        Some(number) => put_line_of(err, place, number),
        None => put(err, place.word),
    }
}

fn put_refused<E: Sink>(
    err: &mut E,
    place: Place,
    line: Option<u64>,
    refusal: &Refusal,
) -> Result<(), Failed>
    ensures { Puts E.put_bytes E.faults E.at_last (line_of (Refused place.word.now line (refusal_text refusal.now))) err.old err.new result }
{
    put(err, b"refused: ")?;
    put_where(err, place, line)?;
    put_cause(err, refusal)
}

/// Puts the line of a stop.
fn put_stop<E: Sink>(err: &mut E, stop: &Stop) -> Result<(), Failed>
    ensures { Puts E.put_bytes E.faults E.at_last (line_of (end_of stop.now)) err.old err.new result }
{
    match stop {
        Stop::Refused {
            place,
            line,
            refusal,
        } => put_refused(err, *place, *line, refusal),
        Stop::ReadFault { place } => put_read_fault(err, *place),
        Stop::WriteFault => put(err, b"fault: writing\n"),
        Stop::NoMemory => put(err, b"no memory\n"),
    }
}

/// Puts the line of an ending, and nothing at Done.
fn put_line<E: Sink>(err: &mut E, ending: &Ending) -> Result<(), Failed>
    ensures { Puts E.put_bytes E.faults E.at_last (line_of (end_by ending.now)) err.old err.new result }
{
    match ending {
        Ending::Done => Ok(()),
        Ending::Usage => put(err, b"usage: wfprov COMMAND WORDS\n"),
        Ending::Stopped { stop } => put_stop(err, stop),
    }
}

/// Puts the line of an ending, and nothing at Done. It needs no memory, and a fault of the sink changes no ending.
pub fn tell<E: Sink>(err: &mut E, ending: &Ending)
    ensures { IsPut (line_of (end_by ending.now)) (E.put_bytes err.old) (E.put_bytes err.new) (E.faults err.old) (E.faults err.new) (E.at_last err.new) }
{
    let _ = put_line(err, ending);
}
