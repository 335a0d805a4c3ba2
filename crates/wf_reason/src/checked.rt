// What is said of a chain that was handed in.
ghost use Rattle.std.specs.Prelude.{◌≡◌, IfOk};
ghost use Rattle.wf_reason.specs.Checked.{checked_text, no_line};

use itoa::Buffer;
use std::alloc::{AllocError, Global};

/// What is said of the lines of a chain that was handed in.
#[derive(Clone, Copy)]
pub enum Checked {
    /// The lines are a chain.
    Chain,
    /// The line of this number, from 1, is the first that is wrong.
    Wrong { line: u64 },
    /// All lines are right, but no chain ends with the last, which has this number; it is 0 where there are no lines.
    Unended { last: u64 },
}

/// `no` with the number of a line.
fn no_text(alloc: Global, line: u128) -> Result<Vec<u8>, AllocError>
    ensures { IfOk result (λ text. text.items ≡ no_line line) }
{
    let mut digits = Buffer::new();
    let mut text = Vec::from_slice(alloc, b"no ")?;
    text.extend_from_slice(digits.format(line).as_bytes())?;
    text.extend_from_slice(b"\n")?;
    Ok(text)
}

impl Checked {
    /// The line that says it: `yes`, or `no` with the number of a line. Behind lines that are all right this is one more than the number of the last.
    pub fn text(self, alloc: Global) -> Result<Vec<u8>, AllocError>
        ensures { IfOk result (λ text. text.items ≡ checked_text self) }
    {
        match self {
            Checked::Chain => Vec::from_slice(alloc, b"yes\n"),
            Checked::Wrong { line } => no_text(alloc, u128::from(line)),
            Checked::Unended { last } => no_text(alloc, u128::from(last) + 1),
        }
    }
}
