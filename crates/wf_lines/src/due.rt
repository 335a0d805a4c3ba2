// Text that is due.
ghost use Rattle.std.specs.Prelude.{◌≡◌, ◌<◌, ◌≤◌, ◌+◌, ◌++◌, [], true, false, length, IfOk, OnOk, IsOk, IsErr};
ghost use Rattle.std.specs.Bool.{OnTrue, OnFalse};
ghost use Rattle.wf_io.specs.Told.{Rose, Appended};
ghost use Rattle.wf_lines.specs.Taking.{IsDue, IsCut};

use std::alloc::{AllocError, Global};
use std::marker::Model;
use wf_io::{Failed, PIECE, Sink};

/// The room that is taken at first: for a piece, and a line that is longer than what is left of it.
const ROOM: usize = PIECE + PIECE / 4;

/// Text that is due: it is gathered, and put in large pieces. It is added by `add`; or it is written behind the text, and then handed on by `pass_on`.
#[derive(Drop)]
pub struct Due {
    pub text: Vec<u8>,
}

impl Model for Due {
    ghost use Rattle.std.specs.Prelude.{List, ℕ};

    ghost Value = { List ℕ };

    ghost view = { λ d. d.text.items };
}

impl Due {
    /// Nothing is due. Takes the memory for a piece.
    pub fn new(alloc: Global) -> Result<Due, AllocError>
        ensures { IfOk result (λ d. d ≡ []) }
    {
        Ok(Due {
            text: Vec::with_capacity(alloc, ROOM)?,
        })
    }

    /// Puts what is due. Where nothing is, nothing is put.
    pub fn put<O: Sink>(&mut self, out: &mut O) -> Result<(), Failed>
        ensures ok { OnOk result (Appended self.old (O.put_bytes out.old) (O.put_bytes out.new)) }
        ensures none { OnOk result (self.new ≡ []) }
        ensures idle { self.old ≡ [] → IsOk result × (out.new ≡ out.old) }
        ensures err { IsErr result → IsCut self.old (O.put_bytes out.old) (O.put_bytes out.new) }
        ensures same { OnOk result (O.faults out.new ≡ O.faults out.old) }
        ensures later { O.faults out.old ≤ O.faults out.new }
        ensures cause { IsErr result → Rose (O.faults out.old) (O.faults out.new) (O.at_last out.new) }
    {
        if self.text.is_empty() {
            return Ok(());
        }
        let put = out.put(&self.text);
        self.text.clear();
        put
    }

    /// Puts what is due, once it is as long as a piece. A shorter text stays due.
    pub fn pass_on<O: Sink>(&mut self, out: &mut O) -> Result<(), Failed>
        ensures ok { OnOk result (IsDue self.old self.new (O.put_bytes out.old) (O.put_bytes out.new)) }
        ensures short { OnOk result (length self.new < PIECE) }
        ensures err { IsErr result → IsCut self.old (O.put_bytes out.old) (O.put_bytes out.new) }
        ensures same { OnOk result (O.faults out.new ≡ O.faults out.old) }
        ensures later { O.faults out.old ≤ O.faults out.new }
        ensures cause { IsErr result → Rose (O.faults out.old) (O.faults out.new) (O.at_last out.new) }
    {
        if self.text.len() < PIECE {
            return Ok(());
        }
        self.put(out)
    }

    /// Gathers a text, if what is due stays no longer than a piece and no memory is wanting, and tells whether it did.
    fn keep(&mut self, text: &[u8]) -> bool
        ensures kept { OnTrue result (self.new ≡ self.old ++ text.now) }
        ensures short { OnTrue result (length self.new ≤ PIECE) }
        ensures unchanged { OnFalse result (self.new ≡ self.old) }
    {
        self.text.len().saturating_add(text.len()) <= PIECE
            && self.text.extend_from_slice(text).is_ok()
    }

    /// Puts what is due to make room for a text, which then is due alone; a text that is longer than a piece is put at once.
    fn renew<O: Sink>(&mut self, out: &mut O, text: &[u8]) -> Result<(), Failed>
        ensures ok { OnOk result (IsDue (self.old ++ text.now) self.new (O.put_bytes out.old) (O.put_bytes out.new)) }
        ensures short { OnOk result (length self.new ≤ PIECE) }
        ensures err { IsErr result → IsCut (self.old ++ text.now) (O.put_bytes out.old) (O.put_bytes out.new) }
        ensures same { OnOk result (O.faults out.new ≡ O.faults out.old) }
        ensures later { O.faults out.old ≤ O.faults out.new }
        ensures cause { IsErr result → Rose (O.faults out.old) (O.faults out.new) (O.at_last out.new) }
    {
        self.put(out)?;
        if text.is_empty() || self.keep(text) {
            return Ok(());
        }
        match out.put(text) {
            Ok(()) => Ok(()),
            Err(failed) => Err(failed),
        }
    }

    /// A text is due behind what is: it is gathered, or what is due is put first to make room.
    #[inline]
    pub fn add<O: Sink>(&mut self, out: &mut O, text: &[u8]) -> Result<(), Failed>
        ensures ok { OnOk result (IsDue (self.old ++ text.now) self.new (O.put_bytes out.old) (O.put_bytes out.new)) }
        ensures short { OnOk result (length self.new ≤ PIECE) }
        ensures err { IsErr result → IsCut (self.old ++ text.now) (O.put_bytes out.old) (O.put_bytes out.new) }
        ensures same { OnOk result (O.faults out.new ≡ O.faults out.old) }
        ensures later { O.faults out.old ≤ O.faults out.new }
        ensures cause { IsErr result → Rose (O.faults out.old) (O.faults out.new) (O.at_last out.new) }
    {
        // Most lines of a file make nothing more after their first piece.
        if text.is_empty() && self.text.len() <= PIECE {
            return Ok(());
        }
        if self.keep(text) {
            return Ok(());
        }
        self.renew(out, text)
    }
}
