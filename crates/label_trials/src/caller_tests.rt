// Label files that are opened once, and pairs of their items that are decided. The first two files are those of worked examples. Two labels of the third were written by hand, and no run has both.
ghost use Rattle.std.specs.Prelude.{◌^◌, ◌≤◌, length};

use label_caller::Decider;
use label_file::StoreFault;
use std::alloc::Global;
use std::test::Fail;
use wf_query::Answer;
use wf_samples::{FORKING, LINE, PAIR, safe, sample};

/// The label file of examples/line.
const OF_LINE: &[u8] =
    b"WFL1\x8f\xbb\x4f\xca\xf0\xd4\x77\x63\x20\x00\x89\x79\xb9\x21\x95\x0e\x24\xba\x2b\x3f\xfd\x93\x7a\x5f\xbe\x18\x24\x81\x20\x1d\xce\x8e\x03r.a\x00\x01\x20\x03r.b\x00\x01\x60\x04i1.y\x00\x01\xb0";

/// The label file of examples/pair.
const OF_PAIR: &[u8] =
    b"WFL1\x15\x2f\xa3\xb4\x67\xbc\xb6\xfb\xc4\x76\x1d\x5d\x21\xc4\xa9\xeb\xb6\x7c\xf8\xe7\xe4\x89\xc6\x29\xac\x84\xbb\x84\x95\x6a\x66\x1f\x03r.a\x00\x01\x20\x03r.b\x00\x01\x60\x04x0.y\x00\x01\xd8\x04y1.y\x00\x01\xa6";

/// The items of both bodies of one module.
const OF_FORKING: &[u8] =
    b"WFL1\x79\x02\xb5\x59\xf3\xf1\x57\xae\x01\xc3\x09\xdf\x9f\x20\xce\x67\xd9\xbf\x00\x68\x65\x09\x7b\xc2\xe9\xda\x25\x03\x0e\x33\x54\x38\x03r.a\x00\x01\x20\x03i.y\x00\x01\xb0\x03j.y\x00\x01\x94";

/// Two items, and the answer to whether the second depends on the first.
type Pair = (&'static [u8], &'static [u8], Answer);

/// Each line: a specification, a view, a label file, and pairs of its items. One label file serves two views of `PAIR`, and two labels of `FORKING` are of two productions of one module.
const ANSWERED: [(&str, &str, &[u8], &[Pair]); 4] = [
    (
        LINE,
        "{}",
        OF_LINE,
        &[
            (b"r.a", b"i1.y", Answer::Yes),
            (b"i1.y", b"r.b", Answer::Yes),
            (b"r.a", b"r.b", Answer::Yes),
            (b"r.b", b"r.a", Answer::No),
            (b"i1.y", b"i1.y", Answer::No),
            (b"r.a", b"i2.y", Answer::Unknown),
        ],
    ),
    (
        PAIR,
        "{}",
        OF_PAIR,
        &[
            (b"x0.y", b"y1.y", Answer::Yes),
            (b"y1.y", b"x0.y", Answer::No),
            (b"r.a", b"y1.y", Answer::Yes),
        ],
    ),
    (
        PAIR,
        r#"{"expand":["A"]}"#,
        OF_PAIR,
        &[
            (b"x0.y", b"y1.y", Answer::Hidden),
            (b"y1.y", b"x0.y", Answer::Hidden),
            (b"r.a", b"x0.y", Answer::Yes),
        ],
    ),
    (
        FORKING,
        "{}",
        OF_FORKING,
        &[
            (b"i.y", b"j.y", Answer::Clash),
            (b"r.a", b"i.y", Answer::Yes),
            (b"r.a", b"j.y", Answer::Yes),
        ],
    ),
];

/// Whether a label file that is opened once under a view gives these answers.
fn answers(
    alloc: Global,
    spec: &str,
    text: &str,
    bytes: &[u8],
    pairs: &[Pair],
) -> Result<bool, Fail> {
    if bytes.len() > 1000 {
        return Err(Fail::new("a short label file"));
    }
    let s = sample(alloc, spec)?;
    let safe = safe(alloc, &s, text)?;
    let mut decider = Decider::open(alloc, &safe, bytes)?;
    for (first, second, answer) in pairs {
        if decider.decide(first, second) != *answer {
            return Ok(false);
        }
    }
    Ok(true)
}

/// Why a label file is refused under the default view of a grammar.
fn fault(alloc: Global, spec: &str, bytes: &[u8]) -> Result<Option<StoreFault>, Fail>
    requires { length bytes.now ≤ 2 ^ 30 }
{
    let s = sample(alloc, spec)?;
    let safe = safe(alloc, &s, "{}")?;
    match Decider::open(alloc, &safe, bytes) {
        Ok(_) => Ok(None),
        Err(fault) => Ok(Some(fault)),
    }
}

#[test]
fn pairs_are_decided_from_a_label_file(rt: HostRuntime) -> Result<(), Fail> {
    for &(spec, text, bytes, pairs) in &ANSWERED {
        assert!(rt; answers(rt.alloc(), spec, text, bytes, pairs)?, "at {spec}");
    }
    Ok(())
}

#[test]
fn a_label_file_of_another_grammar_is_refused(rt: HostRuntime) -> Result<(), Fail> {
    assert!(rt; fault(rt.alloc(), LINE, OF_PAIR)? == Some(StoreFault::OtherSpec));
    assert!(rt; fault(rt.alloc(), PAIR, OF_PAIR)?.is_none());
    Ok(())
}
