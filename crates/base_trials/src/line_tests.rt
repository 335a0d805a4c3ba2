// Lines of files: where they end, how long they may be, and files that break.
use crate::file_tests::file;
use std::alloc::{AllocError, Global};
use std::test::Fail;
use wf_io::{FuseShelf, LineFault, Lines, MemShelf, Shelf};
use wf_model::Seq;

/// A shelf with this file alone, named `f`, of which a call reads at most `piece` bytes.
fn shelf_of(alloc: Global, bytes: &[u8], broken: bool, piece: u32) -> Result<MemShelf, AllocError> {
    let mut files = Vec::new(alloc);
    files.push(file(alloc, "f", bytes, broken)?)?;
    Ok(MemShelf::new(Seq::from_vec(files), piece.max(1)))
}

/// The sign of a fault.
fn sign(fault: LineFault) -> u8 {
    match fault {
        LineFault::LineTooLong => b'l',
        LineFault::FileTooLong => b'f',
        LineFault::Fault => b'!',
    }
}

/// The last digit of a line's number, and a sign.
fn mark(line: u64, sign: u8) -> [u8; 2] {
    [b'0' + (line % 10) as u8, sign]
}

/// Each line of `f` with its mark, and the mark of the end: `.` or the sign of a fault.
fn advanced<H: Shelf>(alloc: Global, shelf: &mut H) -> Result<Vec<u8>, AllocError> {
    let mut text = Vec::new(alloc);
    let mut lines = Lines::open(alloc, "f")?;
    'lines: loop {
        let end = match lines.advance(shelf) {
            Ok(true) => None,
            Ok(false) => Some(b'.'),
            Err(fault) => Some(sign(fault)),
        };
        if let Some(sign) = end {
            text.extend_from_slice(&mark(lines.line(), sign))?;
            return Ok(text);
        }
        text.extend_from_slice(lines.held())?;
        text.extend_from_slice(&mark(lines.line(), b'|'))?;
    }
}

/// The same by `next`.
fn lent<H: Shelf>(alloc: Global, shelf: &mut H) -> Result<Vec<u8>, AllocError> {
    let mut text = Vec::new(alloc);
    let mut lines = Lines::open(alloc, "f")?;
    'lines: loop {
        let end = match lines.next(shelf) {
            Ok(Some(line)) => {
                text.extend_from_slice(line)?;
                None
            }
            Ok(None) => Some(b'.'),
            Err(fault) => Some(sign(fault)),
        };
        if let Some(sign) = end {
            text.extend_from_slice(&mark(lines.line(), sign))?;
            return Ok(text);
        }
        text.extend_from_slice(&mark(lines.line(), b'|'))?;
    }
}

/// Whether a file has these lines and this end, by `advance` and by `next`.
fn gives(
    alloc: Global,
    bytes: &str,
    broken: bool,
    piece: u32,
    want: &str,
) -> Result<bool, AllocError> {
    let mut shelf = shelf_of(alloc, bytes.as_bytes(), broken, piece)?;
    let first = advanced(alloc, &mut shelf)?;
    let second = lent(alloc, &mut shelf)?;
    Ok(first.as_slice() == want.as_bytes() && second.as_slice() == want.as_bytes())
}

/// Whole files and broken ones, with their lines and their ends.
const FILES: [(&str, bool, &str); 15] = [
    ("", false, "0."),
    ("\n", false, "0."),
    ("\r", false, "0."),
    ("a", false, "a1|1."),
    ("a\n", false, "a1|1."),
    ("a\nb", false, "a1|b2|2."),
    ("a\r\nb\r", false, "a1|b2|2."),
    ("\n\r\na\n\nb\n\n", false, "a3|b5|5."),
    ("a\r\r\n\rb\n", false, "a\r1|\rb2|2."),
    (" \n", false, " 1|1."),
    ("", true, "0!"),
    ("ab", true, "0!"),
    ("ab\n", true, "ab1|1!"),
    ("ab\ncd", true, "ab1|1!"),
    ("\n\nab\r\n\r", true, "ab3|3!"),
];

#[test]
fn lines_end_where_they_should(rt: HostRuntime) -> Result<(), Fail> {
    for (bytes, broken, want) in FILES {
        for piece in [1, 3, 100] {
            assert!(rt;
                gives(rt.alloc(), bytes, broken, piece, want)?,
                "at {bytes:?} by {piece}"
            );
        }
    }
    Ok(())
}

/// Whether the first line of a file with so many letters and this end has `want` bytes, or else this fault.
fn begins(
    alloc: Global,
    count: usize,
    end: &str,
    broken: bool,
    want: Result<usize, LineFault>,
) -> Result<bool, AllocError> {
    let mut bytes = Vec::new(alloc);
    bytes.resize(count, b'a')?;
    bytes.extend_from_slice(end.as_bytes())?;
    let mut shelf = shelf_of(alloc, &bytes, broken, 10000)?;
    let mut lines = Lines::open(alloc, "f")?;
    let got = lines.advance(&mut shelf);
    match want {
        Ok(size) => Ok(got == Ok(true) && lines.held().len() == size),
        Err(fault) => Ok(got == Err(fault)),
    }
}

#[test]
fn long_lines_are_refused(rt: HostRuntime) -> Result<(), Fail> {
    for (count, end, broken, want) in [
        (65535, "\r\nb", false, Ok(65535)),
        (65536, "", false, Ok(65536)),
        (65536, "\nb", false, Ok(65536)),
        (65536, "\n", true, Ok(65536)),
        (65536, "", true, Err(LineFault::Fault)),
        (65536, "\r\nb", false, Err(LineFault::LineTooLong)),
        (65537, "", false, Err(LineFault::LineTooLong)),
        (65537, "", true, Err(LineFault::LineTooLong)),
        (65537, "\n", false, Err(LineFault::LineTooLong)),
    ] {
        assert!(rt;
            begins(rt.alloc(), count, end, broken, want)?,
            "at {count} and {end:?}"
        );
    }
    Ok(())
}

/// Whether so many calls by threes give these lines and this end, with so many faults.
fn fuses(alloc: Global, calls: u64, want: &str, faults: u64) -> Result<bool, AllocError> {
    let mut shelf = FuseShelf::new(shelf_of(alloc, b"a\nbc\n", false, 3)?, calls);
    let got = advanced(alloc, &mut shelf)?;
    Ok(got.as_slice() == want.as_bytes() && shelf.faults() == faults)
}

#[test]
fn a_fuse_fails_after_its_calls(rt: HostRuntime) -> Result<(), Fail> {
    for (calls, want, faults) in [
        (0, "0!", 1),
        (1, "a1|1!", 1),
        (2, "a1|bc2|2!", 1),
        (3, "a1|bc2|2.", 0),
    ] {
        assert!(rt; fuses(rt.alloc(), calls, want, faults)?, "at {calls}");
    }
    Ok(())
}
