// Why a file, a line of it or a label is refused.
ghost use Rattle.std.specs.Prelude.{◌≡◌, [], IfOk};

use std::alloc::{AllocError, Global};

/// Why a file, a line of it or a label is refused, as messages tell it. Want of memory is none of these: it is an ending of its own.
///
/// No variant is that of one fault. The crate that finds a fault has its words: a name alone, or with a word or a part and its number; or it writes the text.
#[derive(Drop)]
pub enum Refusal {
    /// The name of the fault tells it, as `NotJson`.
    Named {
        name: &'static [u8],
    },
    /// A word stands behind the name, as in `WrongShape modules`.
    Worded {
        name: &'static [u8],
        word: &'static [u8],
    },
    /// A part stands behind the name, by the word of its list and its number there, as in `NameTwice module 3`.
    Numbered {
        name: &'static [u8],
        part: &'static [u8],
        number: u64,
    },
    /// The text was written when the fault was found, as `Unreachable Align`: it has names of the file, several numbers, or a list.
    Written {
        text: Vec<u8>,
    },
}

/// The room of an empty text, in bytes.
const ROOM: usize = 512;

/// An empty text for a refusal that is to be written, with room for 512 bytes: for some words, numbers, and names of 64 bytes. It is taken before what may be refused is tried, so that a text without a list needs no memory when it is written.
pub fn empty_text(alloc: Global) -> Result<Vec<u8>, AllocError>
    ensures { IfOk result (λ text. text.items ≡ []) }
{
    Vec::with_capacity(alloc, ROOM)
}
