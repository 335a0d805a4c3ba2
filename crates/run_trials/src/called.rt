// Calls of the program over files in memory, and runs of the line grammar with bytes that were worked by hand.
ghost use Rattle.std.specs.Prelude.{◌≤◌};

use std::alloc::{AllocError, Global};
use wf_io::{FuseShelf, MemFile, MemShelf, MemSink, Shelf};
use wf_model::{Name, Seq};
use wf_top::Status::ReadFault;
use wf_top::{Status, run};

pub const INGEST: &str = "ingest spec events";

pub const ASK: &str = "ask spec view labels queries";

pub const TRACE: &str = "trace spec view events queries";

pub const NO_SPEC: &str = "fault: reading spec\n";

pub const NO_VIEW: &str = "fault: reading view\n";

pub const NO_LABELS: &str = "fault: reading labels\n";

pub const NO_EVENTS: &str = "fault: reading events\n";

pub const NO_QUERIES: &str = "fault: reading queries\n";

pub const NO_ROOM: &str = "fault: writing\n";

/// The label file for no events: the head alone, four letters and the digest of the canonical text of the grammar.
pub const HEAD: &[u8] =
    b"WFL1\x8f\xbb\x4f\xca\xf0\xd4\x77\x63\x20\x00\x89\x79\xb9\x21\x95\x0e\x24\xba\x2b\x3f\xfd\x93\x7a\x5f\xbe\x18\x24\x81\x20\x1d\xce\x8e";

/// The label file of a run in which nothing is expanded.
pub const START: &[u8] =
    b"WFL1\x8f\xbb\x4f\xca\xf0\xd4\x77\x63\x20\x00\x89\x79\xb9\x21\x95\x0e\x24\xba\x2b\x3f\xfd\x93\x7a\x5f\xbe\x18\x24\x81\x20\x1d\xce\x8e\x03r.a\x00\x01\x20\x03r.b\x00\x01\x60";

/// The label file of a run that is finished.
pub const WHOLE: &[u8] =
    b"WFL1\x8f\xbb\x4f\xca\xf0\xd4\x77\x63\x20\x00\x89\x79\xb9\x21\x95\x0e\x24\xba\x2b\x3f\xfd\x93\x7a\x5f\xbe\x18\x24\x81\x20\x1d\xce\x8e\x03r.a\x00\x01\x20\x03r.b\x00\x01\x60\x04i1.y\x00\x01\xb0";

/// The events of that run.
pub const EVENTS: &str =
    "{\"start\":\"r\"}\n{\"expand\":\"r\",\"production\":0,\"names\":[\"i1\",\"i2\"]}\n";

/// Queries on it, and their answers.
pub const QUERIES: &str = "r.a i1.y\ni1.y r.b\nr.b r.a\ni1.y i1.y\nr.a i2.y\n";

pub const ANSWERS: &[u8] = b"yes\nyes\nno\nno\nunknown\n";

/// What a file of a shelf is: its name, its bytes, and whether reading past them fails.
pub type Filed<'a> = (&'a str, &'a [u8], bool);

/// How a call ends: its status, and what it puts into out and into err.
pub type End<'a> = (Status, &'a [u8], &'a str);

pub fn name(alloc: Global, text: &str) -> Result<Name, AllocError> {
    Ok(Name::from_vec(Vec::from_slice(alloc, text.as_bytes())?))
}

fn file(alloc: Global, (called, bytes, broken): Filed) -> Result<MemFile, AllocError> {
    Ok(MemFile {
        name: name(alloc, called)?,
        bytes: Seq::from_vec(Vec::from_slice(alloc, bytes)?),
        broken,
    })
}

/// A shelf of such files, read in pieces of so many bytes.
fn shelf_of(alloc: Global, files: &[Filed], piece: u32) -> Result<MemShelf, AllocError>
    requires { 1 ≤ piece }
{
    let mut list = Vec::new(alloc);
    for filed in files {
        list.push(file(alloc, *filed)?)?;
    }
    Ok(MemShelf::new(Seq::from_vec(list), piece))
}

pub fn words<'a>(alloc: Global, line: &'a str) -> Result<Vec<&'a str>, AllocError> {
    let mut words = Vec::new(alloc);
    for word in line.split_whitespace() {
        words.push(word)?;
    }
    Ok(words)
}

/// Whether a call with these words, over sinks with room for so many bytes, ends so.
fn ends_over<H: Shelf>(
    alloc: Global,
    shelf: &mut H,
    words: &[&str],
    rooms: (usize, usize),
    (status, text, message): End,
) -> Result<bool, AllocError> {
    let mut out = MemSink::new(alloc, rooms.0)?;
    let mut err = MemSink::new(alloc, rooms.1)?;
    let found = run(alloc, words, shelf, &mut out, &mut err);
    Ok(found == status && out.bytes() == text && err.bytes() == message.as_bytes())
}

/// Whether a call with the words of a line, over files that come in pieces of so many bytes, and sinks with room for so many, ends so. The shelf fails once where a fault of reading ends the call, and else never.
pub fn ends(
    alloc: Global,
    files: &[Filed],
    piece: u32,
    line: &str,
    rooms: (usize, usize),
    end: End,
) -> Result<bool, AllocError>
    requires { 1 ≤ piece }
{
    let words = words(alloc, line)?;
    let mut shelf = shelf_of(alloc, files, piece)?;
    let is_so = ends_over(alloc, &mut shelf, &words, rooms, end)?;
    Ok(is_so && shelf.faults() == u64::from(end.0 == ReadFault))
}

/// The same over a shelf that passes so many calls on, each of them for at most 4,096 bytes, and then fails.
pub fn ends_over_a_fuse(
    alloc: Global,
    files: &[Filed],
    calls: u64,
    line: &str,
    end: End,
) -> Result<bool, AllocError> {
    let words = words(alloc, line)?;
    let mut shelf = FuseShelf::new(shelf_of(alloc, files, 4096)?, calls);
    let is_so = ends_over(alloc, &mut shelf, &words, (64, 64), end)?;
    Ok(is_so && shelf.faults() == u64::from(end.0 == ReadFault))
}
