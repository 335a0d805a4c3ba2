// Calls over plain files and into plain sinks, which hold no more than a shelf and a sink must.
use crate::called::{EVENTS, QUERIES, name, words};
use std::alloc::{AllocError, Global};
use std::test::Fail;
use wf_io::{PlainFile, PlainShelf, PlainSink};
use wf_model::Seq;
use wf_samples::{LINE, TWISTING};
use wf_top::Status::Done;
use wf_top::{Status, run};

/// A shelf of plain files of these names and texts.
fn plain_shelf_of(alloc: Global, texts: &[(&str, &str)]) -> Result<PlainShelf, AllocError> {
    let mut files = Vec::new(alloc);
    for (called, text) in texts {
        files.push(PlainFile {
            name: name(alloc, called)?,
            bytes: Seq::from_vec(Vec::from_slice(alloc, text.as_bytes())?),
        })?;
    }
    Ok(PlainShelf::new(Seq::from_vec(files)))
}

/// Calls the program over plain files: the status, and how many bytes went to out and to err.
fn plainly_called(alloc: Global, line: &str) -> Result<(Status, u64, u64), AllocError> {
    let texts = [
        ("spec", LINE),
        ("twist", TWISTING),
        ("view", "{}"),
        ("events", EVENTS),
        ("queries", QUERIES),
    ];
    let mut shelf = plain_shelf_of(alloc, &texts)?;
    let mut out = PlainSink::new();
    let mut err = PlainSink::new();
    let words = words(alloc, line)?;
    let status = run(alloc, &words, &mut shelf, &mut out, &mut err);
    Ok((status, out.length(), err.length()))
}

#[test]
fn plain_files_and_sinks_will_do(rt: HostRuntime) -> Result<(), Fail> {
    let traced = plainly_called(rt.alloc(), "trace spec view events queries")?;
    assert_eq!(rt; traced, (Done, 22, 0));
    let viewed = plainly_called(rt.alloc(), "view twist view")?;
    assert_eq!(rt; viewed, (Done, 86, 0));
    Ok(())
}
