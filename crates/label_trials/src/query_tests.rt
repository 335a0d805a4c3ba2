// The two names of a query, and lines that no file has.
use std::test::Fail;
use wf_query::read_query;

/// Lines, and the two names in each that is a query. A file has no empty line, and none that ends with a carriage return.
const LINES: [(&[u8], Option<(&[u8], &[u8])>); 3] = [
    (
        b"run.seqs run-2.tree_b",
        Some((b"run.seqs", b"run-2.tree_b")),
    ),
    (b"", None),
    (b"a.b c.d\r", None),
];

/// The two names of a query, or None where a line is wrong.
fn names(line: &[u8]) -> Option<(&[u8], &[u8])> {
    match read_query(line) {
        Ok(query) => Some((query.first, query.second)),
        Err(_) => None,
    }
}

#[test]
fn names_are_read(rt: HostRuntime) -> Result<(), Fail> {
    for &(line, wanted) in &LINES {
        assert!(rt; names(line) == wanted, "at {line:?}");
    }
    Ok(())
}
