// Files that break at their first byte, in a line and between lines, also in lines of the greatest length and of one byte more, and a device that breaks after each of its calls.
use crate::called::{
    ANSWERS, ASK, EVENTS, End, Filed, HEAD, INGEST, NO_EVENTS, NO_LABELS, NO_QUERIES, NO_SPEC,
    NO_VIEW, QUERIES, START, TRACE, WHOLE, ends, ends_over_a_fuse,
};
use std::alloc::{AllocError, Global};
use std::test::Fail;
use wf_samples::LINE;
use wf_top::Status;
use wf_top::Status::{Done, ReadFault, Refused};

/// A line of events without its end.
const BEGUN: &str = "{\"start\":\"r\"";

/// A line that comes before the one that it waits for.
const HELD: &str = "{\"expand\":\"r\",\"production\":0,\"names\":[\"i1\",\"i2\"]}\n";

/// One that contradicts it.
const OTHER: &str = "{\"expand\":\"r\",\"production\":0,\"names\":[\"i3\",\"i4\"]}\n";

const NO_JSON: &str = "x\n{\"start\":\"r\"}\n";

const CONFLICT: &str = "refused: events line 3: Conflict with 2\n";

const WRONG_EVENT: &str = "refused: events line 3: NotJson\n";

const LONG_EVENT: &str = "refused: events line 1: LineTooLong\n";

const THREE: &str = "r.a r.b\nr.b r.a\nr.a i1.y";

const WRONG_QUERY: &str = "refused: queries line 2: LineWrong\n";

const LONG_QUERY: &str = "refused: queries line 2: LineTooLong\n";

/// Each line: events behind which reading fails, as a text, a number of blanks and a text behind them, and how `ingest` ends.
const EVENTS_CUT: [(&str, usize, &str, Status, &[u8], &str); 18] = [
    ("", 0, "", ReadFault, HEAD, NO_EVENTS),
    ("{\"start\":", 0, "", ReadFault, HEAD, NO_EVENTS),
    (BEGUN, 0, "}", ReadFault, HEAD, NO_EVENTS),
    (BEGUN, 0, "}\n", ReadFault, START, NO_EVENTS),
    (BEGUN, 0, "}\n\r\n\n", ReadFault, START, NO_EVENTS),
    (BEGUN, 0, "}\n{\"expand\":", ReadFault, START, NO_EVENTS),
    (EVENTS, 0, "", ReadFault, WHOLE, NO_EVENTS),
    // Nothing is applied of a file that breaks while all its reports are held.
    (HELD, 0, "", ReadFault, HEAD, NO_EVENTS),
    // A line that is refused stands before the break.
    (EVENTS, 0, OTHER, Refused, WHOLE, CONFLICT),
    (EVENTS, 0, NO_JSON, Refused, WHOLE, WRONG_EVENT),
    // Lines of 65,536 bytes and of 65,537. A carriage return before the newline is no byte of its line.
    (BEGUN, 65523, "}\n", ReadFault, START, NO_EVENTS),
    (BEGUN, 65523, "}", ReadFault, HEAD, NO_EVENTS),
    (BEGUN, 65522, "}\r\n", ReadFault, START, NO_EVENTS),
    (BEGUN, 65522, "}\r", ReadFault, HEAD, NO_EVENTS),
    (BEGUN, 65524, "}\n", Refused, HEAD, LONG_EVENT),
    (BEGUN, 65524, "}", Refused, HEAD, LONG_EVENT),
    (BEGUN, 65523, "}\r\n", Refused, HEAD, LONG_EVENT),
    (BEGUN, 65523, "}\r", Refused, HEAD, LONG_EVENT),
];

/// Each line: queries behind which reading fails, as a text, a number of letters and a text behind them, and how `ask` and `trace` end.
const QUERIES_CUT: [(&str, usize, &str, Status, &[u8], &str); 16] = [
    ("", 0, "", ReadFault, b"", NO_QUERIES),
    ("r.a r", 0, "", ReadFault, b"", NO_QUERIES),
    ("r.a r.b", 0, "", ReadFault, b"", NO_QUERIES),
    ("r.a r.b\n", 0, "", ReadFault, b"yes\n", NO_QUERIES),
    ("r.a r.b\n\r\n\n", 0, "", ReadFault, b"yes\n", NO_QUERIES),
    ("r.a r.b\nr.", 0, "", ReadFault, b"yes\n", NO_QUERIES),
    (THREE, 0, "", ReadFault, b"yes\nno\n", NO_QUERIES),
    (QUERIES, 0, "", ReadFault, ANSWERS, NO_QUERIES),
    ("r.a r.b\n", 65536, "\n", Refused, b"yes\n", WRONG_QUERY),
    ("r.a r.b\n", 65536, "", ReadFault, b"yes\n", NO_QUERIES),
    ("r.a r.b\n", 65535, "\r\n", Refused, b"yes\n", WRONG_QUERY),
    ("r.a r.b\n", 65535, "\r", ReadFault, b"yes\n", NO_QUERIES),
    ("r.a r.b\n", 65537, "\n", Refused, b"yes\n", LONG_QUERY),
    ("r.a r.b\n", 65537, "", Refused, b"yes\n", LONG_QUERY),
    ("r.a r.b\n", 65536, "\r\n", Refused, b"yes\n", LONG_QUERY),
    ("r.a r.b\n", 65536, "\r", Refused, b"yes\n", LONG_QUERY),
];

/// Each line: after how many calls the shelf fails, the status, the answers and the line on err. Each file takes two calls: one for its bytes, and one for its end.
const FUSES: [(u64, Status, &[u8], &str); 9] = [
    (0, ReadFault, b"", NO_SPEC),
    (1, ReadFault, b"", NO_SPEC),
    (2, ReadFault, b"", NO_VIEW),
    (3, ReadFault, b"", NO_VIEW),
    (4, ReadFault, b"", NO_LABELS),
    (5, ReadFault, b"", NO_LABELS),
    (6, ReadFault, b"", NO_QUERIES),
    (7, ReadFault, ANSWERS, NO_QUERIES),
    (8, Done, ANSWERS, ""),
];

/// The files of the calls, of which reading past the events or the queries may fail.
fn filed<'a>(events: (&'a [u8], bool), queries: (&'a [u8], bool)) -> [Filed<'a>; 5] {
    [
        ("spec", LINE.as_bytes(), false),
        ("view", b"{}", false),
        ("labels", WHOLE, false),
        ("events", events.0, events.1),
        ("queries", queries.0, queries.1),
    ]
}

/// A text that begins so, then a letter so many times, and this behind it.
fn filled(
    alloc: Global,
    (before, count, behind): (&str, usize, &str),
    letter: u8,
) -> Result<Vec<u8>, AllocError> {
    let mut letters = Vec::new(alloc);
    letters.resize(count, letter)?;
    let mut bytes = Vec::from_slice(alloc, before.as_bytes())?;
    bytes.extend_from_slice(&letters)?;
    bytes.extend_from_slice(behind.as_bytes())?;
    Ok(bytes)
}

/// Whether `ingest` ends so with events that break, and `trace` with the same line and no answer.
fn events_end_so(
    alloc: Global,
    text: (&str, usize, &str),
    (status, labels, message): End,
) -> Result<bool, AllocError> {
    let events = filled(alloc, text, b' ')?;
    let files = filed((&events, true), (b"r.a r.b\n", false));
    let ingested = (status, labels, message);
    let traced = (status, b"".as_slice(), message);
    Ok(
        ends(alloc, &files, 10000, INGEST, (64, 64), ingested)?
            && ends(alloc, &files, 10000, TRACE, (64, 64), traced)?,
    )
}

/// Whether `ask` and `trace` end so with queries that break.
fn queries_end_so(alloc: Global, text: (&str, usize, &str), end: End) -> Result<bool, AllocError> {
    let queries = filled(alloc, text, b'a')?;
    let files = filed((EVENTS.as_bytes(), false), (&queries, true));
    Ok(
        ends(alloc, &files, 10000, ASK, (64, 64), end)?
            && ends(alloc, &files, 10000, TRACE, (64, 64), end)?,
    )
}

#[test]
fn a_file_that_breaks_has_its_whole_lines(rt: HostRuntime) -> Result<(), Fail> {
    for &(before, count, behind, status, labels, message) in &EVENTS_CUT {
        let text = (before, count, behind);
        let end = (status, labels, message);
        assert!(rt;
            events_end_so(rt.alloc(), text, end)?,
            "at {before:?}, {count} and {behind:?}"
        );
    }
    for &(before, count, behind, status, answers, message) in &QUERIES_CUT {
        let text = (before, count, behind);
        let end = (status, answers, message);
        assert!(rt;
            queries_end_so(rt.alloc(), text, end)?,
            "at {before:?}, {count} and {behind:?}"
        );
    }
    Ok(())
}

#[test]
fn a_device_may_break_at_each_call(rt: HostRuntime) -> Result<(), Fail> {
    let files = filed((EVENTS.as_bytes(), false), (QUERIES.as_bytes(), false));
    for &(calls, status, answers, message) in &FUSES {
        let end = (status, answers, message);
        assert!(rt;
            ends_over_a_fuse(rt.alloc(), &files, calls, ASK, end)?,
            "at {calls}"
        );
    }
    Ok(())
}
