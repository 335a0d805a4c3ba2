// The program `wfprov`: the call `run` of the crate wf_top over the files of the system and the standard streams.
#![tactic(auto)]

ghost use Rattle.std.specs.Prelude.{◌≡◌};
ghost use Rattle.wfprov.specs.Codes.{code_of};

mod again;
mod dir_shelf;
mod held_file;
mod read_once;
mod std_sink;

use dir_shelf::DirShelf;
use std::alloc::{AllocError, Global};
use std::env;
use std::io::ErrorKind;
use std::process::ExitCode;
use std_sink::StdSink;
use wf_io::Sink;
use wf_top::{Status, run};

/// The exit status that tells a status.
fn code_of(status: Status) -> u8
    ensures { result ≡ code_of status }
{
    match status {
        Status::Done => 0,
        Status::Usage => 1,
        Status::Refused => 2,
        Status::ReadFault => 3,
        Status::WriteFault => 4,
        Status::NoMemory => 5,
    }
}

/// The words after the name of the program. There are none where the system gives none, or one that is not UTF-8.
fn texts_of(rt: &HostRuntime) -> Result<Vec<String>, AllocError> {
    let alloc: Global = rt.alloc();
    match env::args(rt) {
        Ok(texts) => texts.skip(1).collect(alloc),
        Err(error) => {
            if error.kind() == ErrorKind::OutOfMemory {
                return Err(AllocError);
            }
            Ok(Vec::new(alloc))
        }
    }
}

/// The words, as `run` takes them.
fn words_of(alloc: Global, texts: &[String]) -> Result<Vec<&str>, AllocError> {
    let mut words = Vec::new(alloc);
    for text in texts {
        words.push(text.as_str())?;
    }
    Ok(words)
}

/// Tells that memory was wanting before there were words.
fn told_wanting(rt: &HostRuntime) -> ExitCode {
    let mut err = StdSink::new(rt, rt.stderr());
    let _ = err.put(b"no memory\n");
    ExitCode::from(code_of(Status::NoMemory))
}

fn main(rt: HostRuntime) -> ExitCode {
    let alloc = rt.alloc();
    let Ok(texts) = texts_of(&rt) else {
        return told_wanting(&rt);
    };
    let Ok(words) = words_of(alloc, &texts) else {
        return told_wanting(&rt);
    };
    let mut shelf = DirShelf::new(&rt);
    let mut out = StdSink::new(&rt, rt.stdout());
    let mut err = StdSink::new(&rt, rt.stderr());
    let status = run(alloc, &words, &mut shelf, &mut out, &mut err);
    ExitCode::from(code_of(status))
}
