// Labels alone, without the names of their items.
ghost use Rattle.std.specs.Prelude.{◌≡◌, ◌<◌, ◌≤◌, ◌++◌, ◌∷◌, [], length, take, get_or, OnOk, OnErr};
ghost use Rattle.wf_labeller.specs.Pieces.{pieces, AreEnds};

use std::alloc::{AllocError, Global};
use std::marker::Model;

/// The labels of items, one behind another, each as the bytes that its bits fill. The items are told by their places in the list alone. A label takes its bytes and one number for their end.
#[derive(Drop)]
pub struct Labels {
    bytes: Vec<u8>,
    ends: Vec<usize>,
}

impl Model for Labels {
    ghost use Rattle.std.specs.Prelude.{ℕ, List, length};
    ghost use Rattle.wf_labeller.specs.Pieces.{pieces, AreEnds};

    ghost Value = { List (List ℕ) };

    ghost view = { λ l. pieces l.bytes.items 0 l.ends.items };

    ghost invariant = { λ l. AreEnds 0 l.ends.items (length l.bytes.items) };
}

/// Where the piece of a number begins.
fn begin_of(ends: &[usize], i: usize) -> usize
    requires { i ≤ length ends.now }
    ensures { result ≡ get_or (0 ∷ ends.now) i 0 }
{
    if i == 0 { 0 } else { ends[i - 1] }
}

/// The piece of a number.
fn piece_of<'l>(bytes: &'l [u8], ends: &[usize], i: usize) -> &'l [u8]
    requires ends { AreEnds 0 ends.now (length bytes.now) }
    requires in_range { i < length ends.now }
    ensures { result.now ≡ get_or (pieces bytes.now 0 ends.now) i [] }
{
    let begin = begin_of(ends, i);
    let end = ends[i];
    prove!(begin <= end);
    prove!(end <= bytes.len());
    &bytes[begin..end]
}

/// Appends a piece. The only error is that memory is refused, and then all is as it was.
fn add_piece(bytes: &mut Vec<u8>, ends: &mut Vec<usize>, piece: &[u8]) -> Result<(), AllocError>
    requires { AreEnds 0 ends.old.items (length bytes.old.items) }
    ensures ends { AreEnds 0 ends.new.items (length bytes.new.items) }
    ensures ok { OnOk result (pieces bytes.new.items 0 ends.new.items ≡ pieces bytes.old.items 0 ends.old.items ++ piece.now ∷ []) }
    ensures err { OnErr result (pieces bytes.new.items 0 ends.new.items ≡ pieces bytes.old.items 0 ends.old.items) }
{
    let before = bytes.len();
    bytes.extend_from_slice(piece)?;
    let end = bytes.len();
    match ends.push(end) {
        Ok(()) => Ok(()),
        Err(refused) => {
            bytes.truncate(before);
            Err(refused.into())
        }
    }
}

impl Labels {
    /// No labels. Takes no memory.
    pub fn new(alloc: Global) -> Labels
        ensures { result ≡ [] }
    {
        Labels {
            bytes: Vec::new(alloc),
            ends: Vec::new(alloc),
        }
    }

    /// How many labels there are.
    pub fn count(&self) -> usize
        ensures { result ≡ length self.now }
    {
        self.ends.len()
    }

    /// The bytes of the label of a number, from 0: its bits, and zero bits that fill the last byte. Takes no memory.
    pub fn label(&self, i: usize) -> &[u8]
        requires { i < length self.now }
        ensures { result.now ≡ get_or self.now i [] }
    {
        piece_of(&self.bytes, &self.ends, i)
    }

    /// Appends the bytes of a label. The only error is that memory is refused, and then the labels are as they were.
    pub fn push(&mut self, label: &[u8]) -> Result<(), AllocError>
        ensures ok { OnOk result (self.new ≡ self.old ++ label.now ∷ []) }
        ensures err { OnErr result (self.new ≡ self.old) }
    {
        add_piece(&mut self.bytes, &mut self.ends, label)
    }
}
