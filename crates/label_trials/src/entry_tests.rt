// The entries of the items that events make, and their bytes in a label file.
use crate::events::Given::{self, Expand, Start};
use crate::events::event;
use bumpalo::Bump;
use label_file::append_entry;
use std::alloc::Global;
use std::test::Fail;
use wf_labeller::{Entry, Labeller, Records};
use wf_run::Run;
use wf_samples::{LOOP, sample};
use wf_spec::RunFault;

/// Each line: an event of the loop grammar, and the bytes of the entries of the items that it makes.
const MADE: [(Given, &[u8]); 4] = [
    (Start("r"), b"\x03r.a\x00\x01\x20\x03r.b\x00\x01\x60"),
    (Expand("r", 0, &["l0"]), b""),
    (Expand("l0", 1, &["w0", "l1"]), b"\x04w0.y\x00\x01\xfb"),
    (Expand("l1", 1, &["w1", "l2"]), b"\x04w1.y\x00\x02\xf4\xc0"),
];

/// Appends an entry that a label file has room for.
fn append(entry: &Entry, bytes: &mut Vec<u8>) -> Result<(), Fail> {
    let name = entry.name.items();
    let label = entry.label.items();
    if name.len() > 129 || label.len() > 65535 {
        return Err(Fail::new("an entry of a label file"));
    }
    append_entry(name, label, bytes)?;
    Ok(())
}

/// The bytes of entries.
fn bytes_of(alloc: Global, entries: &[Entry]) -> Result<Vec<u8>, Fail> {
    let mut bytes = Vec::new(alloc);
    for entry in entries {
        append(entry, &mut bytes)?;
    }
    Ok(bytes)
}

/// Whether an event makes these entries.
fn makes(
    alloc: Global,
    labeller: &mut Labeller<'_>,
    given: Given,
    wanted: &[u8],
) -> Result<bool, Fail> {
    let mut made = Records::new(alloc);
    labeller.take(&event(alloc, given)?, &mut made)?;
    let bytes = bytes_of(alloc, made.entries())?;
    Ok(bytes.as_slice() == wanted)
}

/// Whether an event is refused for this fault, and the entries stay.
fn refuses(
    alloc: Global,
    labeller: &mut Labeller<'_>,
    given: Given,
    fault: RunFault,
) -> Result<bool, Fail> {
    let mut made = Records::new(alloc);
    let refused = labeller.take(&event(alloc, given)?, &mut made);
    Ok(refused == Err(fault) && made.entries().is_empty())
}

#[test]
fn events_make_entries(rt: HostRuntime) -> Result<(), Fail> {
    let s = sample(rt.alloc(), LOOP)?;
    let arena = Bump::new(rt.alloc());
    let run = Run::new(rt.alloc(), &arena, s.linear(), 100);
    let mut labeller = Labeller::new(rt.alloc(), run);
    for &(given, wanted) in &MADE {
        assert!(rt;
            makes(rt.alloc(), &mut labeller, given, wanted)?,
            "at {given:?}"
        );
    }
    assert!(rt;
        refuses(
            rt.alloc(),
            &mut labeller,
            Start("q"),
            RunFault::StartedTwice
        )?
    );
    Ok(())
}
