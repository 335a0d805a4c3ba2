// How the program ends, with the place of a refusal.
ghost use Rattle.std.specs.Prelude.{◌≡◌, Some, None};
ghost use Rattle.wf_message.specs.Endings.{end_of, end_by, end_after, Refused};
ghost use Rattle.wf_message.specs.Refusals.{refusal_text};

use crate::refusal::Refusal;

/// What a message is about: a file, or a label among the words. It holds its word in messages.
#[derive(Clone, Copy)]
pub struct Place {
    pub word: &'static [u8],
}

/// Why a command ends before all is done.
#[derive(Drop)]
pub enum Stop {
    /// A file or a label is refused, or a line of a file, by its number from 1.
    Refused {
        place: Place,
        line: Option<u64>,
        refusal: Refusal,
    },
    /// A file could not be read to its end.
    ReadFault {
        place: Place,
    },
    /// A text could not be put whole.
    WriteFault,
    /// Memory was refused.
    NoMemory,
}

/// How the program ends.
#[derive(Drop)]
pub enum Ending {
    /// All was done.
    Done,
    /// The words are those of no command.
    Usage,
    /// The command ended before all was done.
    Stopped { stop: Stop },
}

/// The stop at a file or a label that is refused, and no line of it is named.
pub fn refused_whole(place: Place, refusal: Refusal) -> Stop
    ensures { end_of result ≡ Refused place.word.now None (refusal_text refusal) }
{
    Stop::Refused {
        place,
        line: None,
        refusal,
    }
}

/// The stop at a line of a file that is refused, by its number from 1.
pub fn refused_line(place: Place, line: u64, refusal: Refusal) -> Stop
    ensures { end_of result ≡ Refused place.word.now (Some line) (refusal_text refusal) }
{
    Stop::Refused {
        place,
        line: Some(line),
        refusal,
    }
}

/// The ending of a command, by how its work ended.
pub fn ending_after(ended: Result<(), Stop>) -> Ending
    ensures ends { end_by result ≡ end_after ended }
    ensures command { result ≡ Ending.Usage → ⊥ }
{
    match ended {
        Ok(()) => Ending::Done,
        Err(stop) => Ending::Stopped { stop },
    }
}
