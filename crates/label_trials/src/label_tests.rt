// Labels of two grammars, told mark by mark.

use std::alloc::Global;
use std::test::Fail;
use wf_accept::Accepted;
use wf_label::{LabelRef, Mark};
use wf_samples::{LINE, TWISTING, sample};
use wf_spec::{EdgeNo, PortNo, PosNo, ProdNo, Step};

const INPUT: Option<Mark> = Some(Mark::Input(PortNo(0)));

const OUTPUT: Option<Mark> = Some(Mark::Output(PortNo(0)));

/// The step to the first position of production 0.
const INTO: Option<Mark> = Some(Mark::Into(Step {
    production: ProdNo(0),
    position: PosNo(0),
}));

/// The first edge of production 0.
const END: Option<Mark> = Some(Mark::End {
    production: ProdNo(0),
    edge: EdgeNo(0),
});

/// The first edge of production 1.
const END_OF_NEXT: Option<Mark> = Some(Mark::End {
    production: ProdNo(1),
    edge: EdgeNo(0),
});

/// Each line: a grammar, the bytes of a label of it, the length of the label, and what a cursor tells at its first four calls.
const TOLD: [(&str, &[u8], u32, [Option<Mark>; 4]); 4] = [
    (LINE, &[0x20], 3, [INPUT, None, None, None]),
    (LINE, &[0x60], 3, [OUTPUT, None, None, None]),
    (LINE, &[0xb0], 4, [END, None, None, None]),
    (
        TWISTING,
        &[0xf0, 0x00, 0x0c, 0x35, 0x0b],
        40,
        [INTO, Some(Mark::Chain(100_000)), END_OF_NEXT, None],
    ),
];

/// The length of a label, and what a cursor tells at its first four calls; None where the bytes are no label.
fn told_by(s: &Accepted, bytes: &[u8]) -> Option<(u32, [Option<Mark>; 4])> {
    let Ok(label) = LabelRef::check(s.linear(), bytes) else {
        return None;
    };
    let mut cursor = label.cursor(s.linear());
    let marks = [cursor.next(), cursor.next(), cursor.next(), cursor.next()];
    Some((label.length(), marks))
}

/// Whether this is told of bytes, where they are tried as a label of the grammar of a text.
fn is_told(
    alloc: Global,
    text: &str,
    bytes: &[u8],
    wanted: (u32, [Option<Mark>; 4]),
) -> Result<bool, Fail> {
    let s = sample(alloc, text)?;
    Ok(told_by(&s, bytes) == Some(wanted))
}

#[test]
fn labels_are_told_mark_by_mark(rt: HostRuntime) -> Result<(), Fail> {
    for &(text, bytes, length, marks) in &TOLD {
        assert!(rt;
            is_told(rt.alloc(), text, bytes, (length, marks))?,
            "at {bytes:?}"
        );
    }
    Ok(())
}
