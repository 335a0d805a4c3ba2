// Worked calls into sinks of each room, and over files that come in pieces of each size, one byte a call among them.
use crate::called::{
    ANSWERS, ASK, EVENTS, Filed, INGEST, NO_EVENTS, NO_LABELS, NO_QUERIES, NO_ROOM, NO_SPEC,
    NO_VIEW, QUERIES, TRACE, WHOLE, ends,
};
use std::alloc::{AllocError, Global};
use std::test::Fail;
use wf_samples::{LINE, TWISTING};
use wf_top::Status;
use wf_top::Status::{Done, ReadFault, Refused, WriteFault};

/// Two events and ten bytes of a third.
const EVENTS_CUT: &str =
    "{\"start\":\"r\"}\n{\"expand\":\"r\",\"production\":0,\"names\":[\"i1\",\"i2\"]}\n{\"expand\":";

/// The queries, and a part of a sixth line.
const QUERIES_CUT: &str = "r.a i1.y\ni1.y r.b\nr.b r.a\ni1.y i1.y\nr.a i2.y\nr.a ";

/// A module S that is done by an S.
const INSIDE_ITSELF: &str =
    r#"{"start":"S","modules":[{"name":"S","in":["a"],"out":["b"]}],"productions":[{"head":"S","body":[["u","S"]],"in":[["a","u.a"]],"out":[["u.b","b"]]}]}"#;

/// Each line: the words of a call, its text, and its status and the line on err where there is room for these two and no more.
const CALLS: [(&str, &[u8], Status, &str); 20] = [
    (INGEST, WHOLE, Done, ""),
    ("ingest spec events-", WHOLE, ReadFault, NO_EVENTS),
    (TRACE, ANSWERS, Done, ""),
    ("trace spec view events cut", ANSWERS, ReadFault, NO_QUERIES),
    (ASK, ANSWERS, Done, ""),
    ("ask spec view labels cut", ANSWERS, ReadFault, NO_QUERIES),
    (
        "view spec view",
        b"S expanded a>b\nP shown x>y\nQ shown x>y\n",
        Done,
        "",
    ),
    (
        "export spec view events",
        b"leaf i1 P\nleaf i2 Q\nitem r.a\nitem r.b\nitem i1.y\nlink i1.y i2.x\nlink r.a i1.x\nlink i2.y r.b\nlink i1.x i1.y\nlink i2.x i2.y\n",
        Done,
        "",
    ),
    ("check spec-", b"", ReadFault, NO_SPEC),
    ("trace spec- view events queries", b"", ReadFault, NO_SPEC),
    ("trace spec view- events queries", b"", ReadFault, NO_VIEW),
    ("ask spec view labels- queries", b"", ReadFault, NO_LABELS),
    // Texts and lines for the whole of which there is no room.
    ("check spec", b"{\"start\":", WriteFault, NO_ROOM),
    (
        "view twist view",
        b"S expanded a1>b1 a2>b2\nL expan",
        WriteFault,
        NO_ROOM,
    ),
    (TRACE, b"yes\ny", WriteFault, "fau"),
    ("check self", b"", Refused, "refused: spec: Unproduct"),
    ("check self", b"", Refused, "refused: spec: Unproductive S"),
    ("trace spec view queries queries", b"", Refused, "refused:"),
    (
        "trace spec view queries queries",
        b"",
        Refused,
        "refused: ev",
    ),
    (
        "trace spec view events third-wrong",
        b"yes\nno\n",
        Refused,
        "refused: queries line 3: LineWrong\n",
    ),
];

/// The files of the calls. The one that is called `cut` breaks, and so do those with a dash at the end.
fn filed() -> [Filed<'static>; 13] {
    [
        ("spec", LINE.as_bytes(), false),
        ("spec-", LINE.as_bytes(), true),
        ("twist", TWISTING.as_bytes(), false),
        ("self", INSIDE_ITSELF.as_bytes(), false),
        ("view", b"{}", false),
        ("view-", b"{}", true),
        ("labels", WHOLE, false),
        ("labels-", WHOLE, true),
        ("events", EVENTS.as_bytes(), false),
        ("events-", EVENTS_CUT.as_bytes(), true),
        ("queries", QUERIES.as_bytes(), false),
        ("cut", QUERIES_CUT.as_bytes(), true),
        ("third-wrong", b"r.a i1.y\nr.b r.a\nr.a\nr.a r.b\n", false),
    ]
}

/// Whether a call into a sink of so many bytes ends with the first ones of its text, before any fault of reading.
fn puts_first(alloc: Global, line: &str, text: &[u8], room: usize) -> Result<bool, AllocError> {
    let Some(first) = text.get(..room) else {
        return Ok(false);
    };
    let end = (WriteFault, first, NO_ROOM);
    ends(alloc, &filed(), 11, line, (room, 64), end)
}

#[test]
fn a_full_device_has_the_first_bytes(rt: HostRuntime) -> Result<(), Fail> {
    for &(line, text, _, _) in &CALLS {
        for room in 0..text.len() {
            assert!(rt;
                puts_first(rt.alloc(), line, text, room)?,
                "at {line:?} and {room}"
            );
        }
    }
    Ok(())
}

/// How many bytes a call of the shelf reads at most.
const PIECES: [u32; 8] = [1, 2, 3, 7, 12, 35, 58, 65536];

#[test]
fn pieces_of_each_size_have_one_text(rt: HostRuntime) -> Result<(), Fail> {
    for &(line, text, status, message) in &CALLS {
        for &piece in &PIECES {
            let rooms = (text.len(), message.len());
            let end = (status, text, message);
            assert!(rt;
                ends(rt.alloc(), &filed(), piece.max(1), line, rooms, end)?,
                "at {line:?} and {piece}"
            );
        }
    }
    Ok(())
}
