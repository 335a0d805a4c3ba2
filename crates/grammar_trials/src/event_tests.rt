// Events as lines, and lines that no file has.
use std::alloc::Global;
use std::test::Fail;
use wf_events::{EventFault, read_event, write_event};

/// Lines that are spelled as events are written, with names of which the program makes none.
const SPELLED: [&[u8]; 10] = [
    b"{\"start\":\"r\"}",
    b"{\"start\":\"Run_2-b\"}",
    b"{\"start\":\"\"}",
    b"{\"start\":\"{a: [b, c]}\"}",
    b"{\"start\":\"0123456789012345678901234567890123456789012345678901234567890123456789\"}",
    b"{\"expand\":\"r\",\"production\":0,\"names\":[]}",
    b"{\"expand\":\"r\",\"production\":7,\"names\":[\"p\"]}",
    b"{\"expand\":\"r\",\"production\":10,\"names\":[\"p\",\"q\"]}",
    b"{\"expand\":\"\",\"production\":1203,\"names\":[\"p\",\"\",\"q\",\"p\",\"r\",\"s\"]}",
    b"{\"expand\":\"n0\",\"production\":18446744073709551615,\"names\":[\"n1\",\"n2\"]}",
];

/// An empty line, and one that a newline stands in: a file has neither.
const NO_LINES: [&[u8]; 2] = [b"", b"{\"start\":\"a\nb\"}"];

/// Whether a line is read as an event of which the same is written, behind what stands there before.
fn is_written_again(alloc: Global, line: &[u8]) -> Result<bool, Fail> {
    let event = read_event(alloc, line)?;
    let mut written = Vec::from_slice(alloc, b"before\n")?;
    write_event(&event, &mut written)?;
    Ok(written.starts_with(b"before\n") && written.get(7..) == Some(line))
}

/// Whether bytes are no JSON, where an event is read.
fn is_no_json(alloc: Global, line: &[u8]) -> bool {
    read_event(alloc, line).err() == Some(EventFault::NotJson)
}

#[test]
fn what_is_written_is_read_again(rt: HostRuntime) -> Result<(), Fail> {
    for &line in &SPELLED {
        assert!(rt; is_written_again(rt.alloc(), line)?, "at {line:?}");
    }
    for &line in &NO_LINES {
        assert!(rt; is_no_json(rt.alloc(), line), "at {line:?}");
    }
    Ok(())
}
