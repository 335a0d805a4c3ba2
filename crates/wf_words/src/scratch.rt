// Room for verdicts by words.
ghost use Rattle.std.specs.Prelude.{◌≤◌, IfOk};
ghost use Rattle.wf_decode.specs.Reading.{most_legs};

use bit_pack::RoomyWriter;
use std::alloc::{AllocError, Global};
use std::marker::Model;
use wf_decode::Scratch;
use wf_vlabel::ViewLabel;

/// Room for decisions and for two labels in states of an automaton. It is made once, and kept from one verdict to the next.
#[derive(Drop)]
pub struct WordScratch {
    pub(crate) legs: Scratch,
    pub(crate) first: RoomyWriter,
    pub(crate) second: RoomyWriter,
}

impl Model for WordScratch {
    ghost use Rattle.std.specs.Prelude.{ℕ};
    ghost use Rattle.wf_words.specs.LastParts.{HasLabelRoom};

    ghost Value = { ℕ };

    ghost view = { λ s. s.legs };

    ghost invariant = { λ s. HasLabelRoom s.first × HasLabelRoom s.second };
}

/// How many bits a label in a state has at most: fewer than 2^17 before its last code, and 127 of that.
const LABEL_ROOM: u32 = 131_199;

impl WordScratch {
    /// Room for two labels of the grammar of a view label, or of a lifted one. Fails only for want of memory.
    pub fn for_view(alloc: Global, vl: &ViewLabel<'_>) -> Result<WordScratch, AllocError>
        ensures { IfOk result (λ s. most_legs vl.now.grammar ≤ s) }
    {
        let legs = Scratch::for_view(alloc, vl)?;
        let first = RoomyWriter::with_room(alloc, LABEL_ROOM)?;
        let second = RoomyWriter::with_room(alloc, LABEL_ROOM)?;
        Ok(WordScratch {
            legs,
            first,
            second,
        })
    }
}
