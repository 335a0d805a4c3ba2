// The bytes of a file that were read and are still to be passed.
ghost use Rattle.std.specs.Prelude.{◌≡◌, ◌<◌, ◌≤◌, ◌+◌, ◌-◌, ◌++◌, ℕ, List, [], length, take, drop, Some, IfOk, OnOk, OnErr, IsErr};
ghost use Rattle.wf_io.specs.Told.{File, Rose, Reads};
ghost use Rattle.wf_io.specs.Readings.{IsOnward, IsReadOn, bytes_read};
ghost use Rattle.wf_io.specs.Windows.{IsMore};

use crate::limits::{LINE_MOST, PIECE};
use crate::outside::{Failed, Shelf};
use std::alloc::{AllocError, Global};
use std::marker::Model;

/// The length of the buffer: room for a piece behind the bytes of the longest line, and they are moved once a piece at most.
const SIZE: usize = 4 * PIECE;

/// Bytes of a file, one behind the other: a part of a buffer.
#[derive(Drop)]
pub(crate) struct Window {
    buffer: Vec<u8>,
    start: usize,
    end: usize,
}

impl Model for Window {
    ghost use Rattle.std.specs.Prelude.{◌≡◌, ◌≤◌, ◌-◌, List, ℕ, length, take, drop};
    ghost use Rattle.wf_io.specs.declared.window.TheConstants.{SIZE};

    ghost Value = { List ℕ };

    ghost view = { λ w. take (w.end - w.start) (drop w.start w.buffer.items) };

    ghost invariant = { λ w. (w.start ≤ w.end) × (w.end ≤ length w.buffer.items) × (length w.buffer.items ≡ SIZE) };
}

/// Moves the bytes of a buffer from `start` to `end` to its beginning, where less room than for a piece is behind them. It gives where they begin then.
fn make_room(buffer: &mut [u8], start: usize, end: usize) -> usize
    requires ordered { start ≤ end }
    requires within { end ≤ length buffer.old }
    requires size { length buffer.old ≡ SIZE }
    requires short { end - start ≤ LINE_MOST }
    ensures same { take (end - start) (drop result buffer.new) ≡ take (end - start) (drop start buffer.old) }
    ensures room { result + (end - start) + PIECE ≤ length buffer.new }
{
    if buffer.len() - end >= PIECE {
        return start;
    }
    buffer.copy_within(start..end, 0);
    0
}

/// Reads at most `size` bytes of the file `name`, from the place `at` on, into a buffer from `from` on.
fn read_behind<H: Shelf>(
    shelf: &mut H,
    name: &str,
    at: u64,
    buffer: &mut [u8],
    from: usize,
    size: usize,
) -> Result<usize, Failed>
    requires room { from + size ≤ length buffer.old }
    requires onward { IsOnward name.now at (H.readings shelf.old) }
    ensures moved { IsReadOn name.now at (bytes_read result) (H.readings shelf.old) (H.readings shelf.new) }
    ensures before { take from buffer.new ≡ take from buffer.old }
    ensures bound { IfOk result (λ n. n ≤ size) }
    ensures same { H.files shelf.new ≡ H.files shelf.old }
    ensures later { H.faults shelf.old ≤ H.faults shelf.new }
    ensures ok { OnOk result (H.faults shelf.new ≡ H.faults shelf.old) }
    ensures cause { IsErr result → Rose (H.faults shelf.old) (H.faults shelf.new) (H.at_last shelf.new) }
    ensures bytes { (f : List ℕ → File) → H.files shelf.old ≡ Some f → Reads (f name.now) at size result (drop from buffer.new) }
{
    shelf.read_at(name, at, &mut buffer[from..from + size])
}

impl Window {
    /// A window that holds nothing. Takes the memory of its buffer.
    pub(crate) fn new(alloc: Global) -> Result<Window, AllocError>
        ensures { IfOk result (λ w. w ≡ []) }
    {
        let mut buffer = Vec::new(alloc);
        buffer.resize(SIZE, 0)?;
        Ok(Window {
            buffer,
            start: 0,
            end: 0,
        })
    }

    /// The bytes that it holds.
    pub(crate) fn bytes(&self) -> &[u8]
        ensures { result.now ≡ self.now }
    {
        &self.buffer[self.start..self.end]
    }

    /// Passes the first bytes.
    pub(crate) fn pass(&mut self, count: usize)
        requires { count ≤ length self.old }
        ensures { self.new ≡ drop count self.old }
    {
        self.start += count;
    }

    /// Reads a piece of the file `name`, from the place `at` on, behind the bytes that it holds, and gives its length: at most `most`, and 0 at the end of the file.
    pub(crate) fn fill<H: Shelf>(
        &mut self,
        shelf: &mut H,
        name: &str,
        at: u64,
        most: usize,
    ) -> Result<usize, Failed>
        requires room { length self.old ≤ LINE_MOST }
        requires some { 0 < most }
        requires onward { IsOnward name.now at (H.readings shelf.old) }
        ensures moved { IsReadOn name.now at (bytes_read result) (H.readings shelf.old) (H.readings shelf.new) }
        ensures more { IfOk result (λ n. (n ≤ most) × (length self.new ≡ length self.old + n)) }
        ensures begins { OnOk result (take (length self.old) self.new ≡ self.old) }
        ensures same { H.files shelf.new ≡ H.files shelf.old }
        ensures later { H.faults shelf.old ≤ H.faults shelf.new }
        ensures ok { OnOk result (H.faults shelf.new ≡ H.faults shelf.old) }
        ensures kept { OnErr result (self.new ≡ self.old) }
        ensures cause { IsErr result → Rose (H.faults shelf.old) (H.faults shelf.new) (H.at_last shelf.new) }
        ensures bytes { (f : List ℕ → File) → H.files shelf.old ≡ Some f → IsMore (f name.now) at self.old self.new result }
    {
        let held = self.end - self.start;
        self.start = make_room(&mut self.buffer, self.start, self.end);
        self.end = self.start + held;
        let size = most.min(PIECE);
        let count = read_behind(shelf, name, at, &mut self.buffer, self.end, size)?;
        self.end += count;
        Ok(count)
    }
}
