// Files that are read whole, and sinks, all in memory.
use std::alloc::{AllocError, Global};
use std::process::Abort;
use std::test::Fail;
use wf_io::{
    Failed, MemFile, MemShelf, MemSink, PlainFile, PlainShelf, PlainSink, ReadFault, Shelf, Sink,
    read_all,
};
use wf_model::{Name, Seq};

/// The files of a shelf: the name, the bytes, and whether reading past them fails. Of two files of one name the first counts.
const FILES: [(&str, &[u8], bool); 3] = [
    ("spec", b"hello", false),
    ("cut", b"hel", true),
    ("spec", b"later", false),
];

/// A file that is read whole: its name, the most bytes that it may have, and its bytes or why it is not read.
type Asked = (&'static str, u64, Result<&'static [u8], ReadFault>);

/// Each line: a file that is read, and how often reading has failed then.
const READ: [(Asked, u64); 5] = [
    (("spec", 5, Ok(b"hello")), 0),
    (("spec", 4, Err(ReadFault::TooLong)), 0),
    (("cut", 2, Err(ReadFault::TooLong)), 0),
    (("cut", 3, Err(ReadFault::Fault)), 1),
    (("none", 3, Err(ReadFault::Fault)), 2),
];

/// Files of a shelf that never fails: a name that it does not hold is an empty file.
const PLAINLY_READ: [Asked; 2] = [("spec", 5, Ok(b"hello")), ("none", 0, Ok(b""))];

fn name(alloc: Global, text: &str) -> Result<Name, AllocError> {
    Ok(Name::from_vec(Vec::from_slice(alloc, text.as_bytes())?))
}

/// A file of this name and these bytes, and whether reading past them fails.
pub fn file(
    alloc: Global,
    called: &str,
    bytes: &[u8],
    broken: bool,
) -> Result<MemFile, AllocError> {
    Ok(MemFile {
        name: name(alloc, called)?,
        bytes: Seq::from_vec(Vec::from_slice(alloc, bytes)?),
        broken,
    })
}

/// A shelf of which a call reads at most two bytes.
fn shelf(alloc: Global) -> Result<MemShelf, AllocError> {
    let mut files = Vec::new(alloc);
    for (called, bytes, broken) in FILES {
        files.push(file(alloc, called, bytes, broken)?)?;
    }
    Ok(MemShelf::new(Seq::from_vec(files), 2))
}

fn plain_shelf(alloc: Global) -> Result<PlainShelf, AllocError> {
    let mut files = Vec::new(alloc);
    files.push(PlainFile {
        name: name(alloc, "spec")?,
        bytes: Seq::from_vec(Vec::from_slice(alloc, b"hello")?),
    })?;
    Ok(PlainShelf::new(Seq::from_vec(files)))
}

/// Whether a file is read so.
fn is_read<H: Shelf>(alloc: Global, shelf: &mut H, (called, most, wanted): Asked) -> bool {
    match read_all(alloc, shelf, called, most) {
        Ok(bytes) => wanted == Ok(bytes.as_slice()),
        Err(fault) => wanted == Err(fault),
    }
}

fn are_read_in_pieces(rt: &impl Abort, alloc: Global, shelf: &mut MemShelf) {
    for (asked, faults) in READ {
        assert!(rt; is_read(alloc, shelf, asked), "at {asked:?}");
        assert_eq!(rt; shelf.faults(), faults, "at {asked:?}");
    }
}

fn are_read_plainly(rt: &impl Abort, alloc: Global, shelf: &mut PlainShelf) {
    for asked in PLAINLY_READ {
        assert!(rt; is_read(alloc, shelf, asked), "at {asked:?}");
    }
}

#[test]
fn whole_files_are_read_in_pieces(rt: HostRuntime) -> Result<(), Fail> {
    are_read_in_pieces(&rt, rt.alloc(), &mut shelf(rt.alloc())?);
    are_read_plainly(&rt, rt.alloc(), &mut plain_shelf(rt.alloc())?);
    Ok(())
}

/// What is put into a sink with room for three bytes, and how that ends.
const PUT: [(&[u8], Result<(), Failed>); 3] = [
    (b"ab", Ok(())),
    (b"cd", Err(Failed)),
    (b"", Ok(())),
];

/// The same for a sink that only counts.
const COUNTED: [(&[u8], Result<(), Failed>); 2] = [(b"ab", Ok(())), (b"cde", Ok(()))];

/// Whether pieces are put one after another, and each ends so.
fn are_put<O: Sink>(sink: &mut O, pieces: &[(&[u8], Result<(), Failed>)]) -> bool {
    for (piece, wanted) in pieces {
        if sink.put(piece) != *wanted {
            return false;
        }
    }
    true
}

#[test]
fn a_sink_keeps_what_fits(rt: HostRuntime) -> Result<(), Fail> {
    let mut sink = MemSink::new(rt.alloc(), 3)?;
    assert!(rt; are_put(&mut sink, &PUT));
    assert_eq!(rt; sink.bytes(), b"abc".as_slice());
    let mut count = PlainSink::new();
    assert!(rt; are_put(&mut count, &COUNTED));
    assert_eq!(rt; count.length(), 5);
    Ok(())
}
