// A text that is hashed.
ghost use Rattle.std.specs.Prelude.{◌≡◌, ℕ, List, [], IfOk};
ghost use Rattle.sha2.specs.Hashers.{Holds256};
ghost use Rattle.sha2.specs.Sha256.{sha256};

use crate::text_sink::TextSink;
use sha2::{Digest, Sha256};
use std::alloc::{AllocError, Global};

/// How many bytes are gathered before they are hashed.
const ROOM: usize = 4096;

/// A text that is hashed while it is taken, and not kept.
///
/// Short pieces are gathered, since each call of the hash function has its cost. A piece longer than the room takes more memory.
#[derive(Drop)]
pub(crate) struct HashedText {
    state: Sha256,
    gathered: Vec<u8>,
}

impl HashedText {
    ghost use Rattle.wf_json.specs.Hashing.{IsHashed};

    /// The empty text. Takes the memory for the pieces that are gathered; fails only for want of it.
    pub(crate) fn new(alloc: Global) -> Result<HashedText, AllocError>
        ensures { IfOk result (λ h. IsHashed h []) }
    {
        Ok(HashedText {
            state: Sha256::new(),
            gathered: Vec::with_capacity(alloc, ROOM)?,
        })
    }

    /// Hashes what is gathered.
    fn hand_on(&mut self)
        ensures hashed { (text : List ℕ) → IsHashed self.old text → Holds256 self.new.state text }
        ensures empty { self.new.gathered.items ≡ [] }
    {
        self.state.update(self.gathered.as_slice());
        self.gathered.clear();
    }

    /// Makes room for this many bytes, if there is none, by hashing what is gathered.
    fn make_room(&mut self, count: usize)
        ensures { (text : List ℕ) → IsHashed self.old text → IsHashed self.new text }
    {
        if self.gathered.capacity() - self.gathered.len() < count {
            self.hand_on();
        }
    }

    /// The SHA-256 of the text.
    pub(crate) fn digest(mut self) -> [u8; 32]
        ensures { (text : List ℕ) → IsHashed self text → result ≡ sha256 text }
    {
        self.hand_on();
        self.state.finalize()
    }
}

impl TextSink for HashedText {
    ghost use Rattle.wf_json.specs.Hashing.{IsHashed};

    ghost holds = { λ h text. IsHashed h text };

    fn put(&mut self, piece: &[u8]) -> Result<(), AllocError> {
        self.make_room(piece.len());
        self.gathered.extend_from_slice(piece)
    }
}
