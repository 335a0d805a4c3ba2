// What takes a text.
ghost use Rattle.std.specs.Prelude.{◌≡◌, ℕ, List, OnOk};
ghost use Rattle.wf_json.specs.Writing.{Takes};

use std::alloc::AllocError;

/// What takes a text, piece by piece.
pub trait TextSink {
    /// This text was taken.
    ghost holds: { Self → List ℕ → Type 0 };

    /// Takes a piece of the text. Fails only for want of memory.
    fn put(&mut self, piece: &[u8]) -> Result<(), AllocError>
        ensures { OnOk result (Takes holds self.old self.new piece.now) };
}

impl TextSink for Vec<u8> {
    ghost holds = { λ v text. v.items ≡ text };

    fn put(&mut self, piece: &[u8]) -> Result<(), AllocError> {
        self.extend_from_slice(piece)
    }
}
