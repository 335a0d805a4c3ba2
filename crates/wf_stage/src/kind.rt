// Kinds of files.
use wf_message::Place;

/// A kind of file that commands read: its word in messages, the most bytes that such a file may have, and the name of the refusal where it has more.
#[derive(Clone, Copy)]
pub struct FileKind {
    pub place: Place,
    pub most: u64,
    pub too_long: &'static [u8],
}
