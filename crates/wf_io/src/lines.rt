// The lines of a file, as they are read.
ghost use Rattle.std.specs.Prelude.{◌≡◌, ◌≢◌, ◌<◌, ◌≤◌, ◌+◌, ◌==◌, ℕ, List, [], true, false, position, length, take, Option, MatchResult, IfOk, IfErr, OnOk, OnErr, Some};
ghost use Rattle.wf_io.specs.Told.{File, Rose};
ghost use Rattle.wf_io.specs.Readings.{Reading, IsOnward};
ghost use Rattle.wf_io.specs.Lines.{text_of};
ghost use Rattle.wf_io.specs.Readers.{file_most, Stands, left_in, left_over, Refuses, Seeks, Stops, Advances};
ghost use Rattle.wf_io.specs.Readers.{TellsLine, FillsLine, IsReading, GoesOnReading, HasReadOnce};
ghost use Rattle.wf_io.specs.Steps.{HasNoNewline, Dry, Sound, refused, wanting, Takes, Holds, Sought, SeesEnd, EndsAt, Grew, GrewIn, HasReadOn};
ghost use Rattle.wf_io.specs.declared.lines.LineFault.TheVariants.{LineTooLong, Fault};

use crate::limits::LINE_MOST;
use crate::outside::Shelf;
use crate::window::Window;
use memchr::memchr;
use std::alloc::{AllocError, Global};
use std::marker::Model;
use thiserror::Error;

/// Why no more lines are lent. The fault whose byte comes first in the file is told.
#[derive(Clone, Copy, Debug, PartialEq, Eq, Error)]
pub enum LineFault {
    /// A line has more than 65,536 bytes before its newline, a carriage return among them.
    #[error("the line is too long")]
    LineTooLong,
    /// The file has more than 2^30 bytes, and a line does not end within the first 2^30 of them and is not too long within them.
    #[error("the file is too long")]
    FileTooLong,
    /// A call of the shelf failed, and its count of faults rose.
    #[error("reading failed")]
    Fault,
}

/// The most bytes that are read of a file.
const FILE_MOST: u64 = 1073741824;

/// The place of the first newline.
fn newline(bytes: &[u8]) -> Option<usize>
    ensures { result ≡ position (λ b. b == 10) bytes.now }
{
    memchr(b'\n', bytes)
}

/// The place of the first newline, of which there is none in the first `from` bytes.
fn newline_from(bytes: &[u8], from: usize) -> Option<usize>
    requires within { from ≤ length bytes.now }
    requires none { HasNoNewline (take from bytes.now) }
    ensures { result ≡ position (λ b. b == 10) bytes.now }
{
    let at = newline(&bytes[from..])?;
    Some(from + at)
}

/// A line without the carriage return at its end.
fn text<'b>(raw: &'b [u8]) -> &'b [u8]
    ensures { result.now ≡ text_of raw.now }
{
    if let [front @ .., b'\r'] = raw {
        return front;
    }
    raw
}

/// A reader of the lines of a file, which are lent as they are read: nothing is copied.
///
/// A line ends at a newline or at the end of a whole file; the end of a broken file ends no line. Behind the last newline there is a line only where a byte stands. One carriage return at the end of a line is dropped. A line that is then empty is skipped and still counted.
///
/// The file is read once, from its beginning to its end, in pieces of 65,536 bytes at most, and only where no whole line is held.
#[derive(Drop)]
pub struct Lines<'n> {
    name: &'n str,
    /// The line that was last lent, with its newline, and the bytes behind it.
    window: Window,
    /// How many bytes of the window are the line that was last lent.
    lent: usize,
    /// How many of these are its text.
    text: usize,
    /// In so many bytes behind the line that was lent there is no newline.
    searched: usize,
    /// Where in the file the bytes behind the line that was lent begin.
    place: u64,
    /// The number of the line that begins there.
    number: u64,
    /// The number of the line that was last lent or refused.
    line: u64,
    live: bool,
    wants: bool,
    ended: bool,
}

impl<'n> Model for Lines<'n> {
    ghost use Rattle.wf_io.specs.Readers.{Reader};

    ghost Value = { Reader };

    ghost use Rattle.wf_io.specs.Seen.{seen, IsSearched};

    ghost view = { seen };

    ghost invariant = { IsSearched };
}

impl<'n> Lines<'n> {
    ghost use Rattle.std.specs.Borrow.{sem};
    ghost use Rattle.wf_io.specs.Nexts.{RestsNext};

    /// Opens a reader of the lines of the file `name`. It takes the memory that it needs, and reads nothing.
    pub fn open(alloc: Global, name: &'n str) -> Result<Lines<'n>, AllocError>
        ensures { IfOk result (λ r. r
            ≡ record { name = name.now; place = 0; kept = []; number = 1; line = 0; held = []; live = true; wants = false; ended = false }) }
    {
        Ok(Lines {
            name,
            window: Window::new(alloc)?,
            lent: 0,
            text: 0,
            searched: 0,
            place: 0,
            number: 1,
            line: 0,
            live: true,
            wants: false,
            ended: false,
        })
    }

    /// Whether it has refused nothing.
    pub fn live(&self) -> bool
        ensures { result ≡ self.now.live }
    {
        self.live
    }

    /// The number, from 1, of the line that was last lent or refused, and 0 before.
    pub fn line(&self) -> u64
        ensures { result ≡ self.now.line }
    {
        self.line
    }

    /// The text of the line that was last lent, until the next call that goes on.
    pub fn held(&self) -> &[u8]
        ensures { result.now ≡ self.now.held }
    {
        &self.window.bytes()[..self.text]
    }

    /// All that is held, from the line that was last lent on. Nothing is promised of it: it serves to look ahead.
    pub fn window(&self) -> &[u8] {
        self.window.bytes()
    }

    /// Whether it holds no whole line, and the file is to be read on.
    pub fn wants(&self) -> bool
        ensures { result ≡ self.now.wants }
    {
        self.wants
    }

    /// How many bytes it holds behind the line that was lent.
    fn size(&self) -> usize
        ensures size { result ≡ length self.now.kept }
        ensures sound { Sound self.now }
    {
        self.window.bytes().len() - self.lent
    }

    /// Whether the file has ended behind what it holds.
    fn ended(&self) -> bool
        ensures { result ≡ self.now.ended }
    {
        self.ended
    }

    /// The place in the file behind what it holds.
    fn end_place(&self) -> u64
        ensures place { result ≡ self.now.place + length self.now.kept }
        ensures sound { Sound self.now }
    {
        self.place + (self.window.bytes().len() - self.lent) as u64
    }

    /// The place of the first newline in the bytes that are held. Each byte is looked at once, in however many calls.
    fn first_newline(&mut self) -> Option<usize>
        ensures same { self.new ≡ self.old }
        ensures found { result ≡ position (λ b. b == 10) self.old.kept }
        ensures sound { Sound self.old }
    {
        let bytes = &self.window.bytes()[self.lent..];
        let all = bytes.len();
        let found = newline_from(bytes, self.searched);
        if found.is_none() {
            self.searched = all;
        }
        found
    }

    /// Refuses the line that begins where it stands.
    fn refuse(&mut self)
        ensures { self.new ≡ refused self.old }
    {
        self.line = self.number;
        self.live = false;
        self.wants = false;
    }

    /// Takes the line of the first `size` bytes that are held, which are `whole` with its newline: it is refused where it is too long, lent where its text has a byte, and else passed.
    fn lend_line(&mut self, size: usize, whole: usize) -> Result<bool, LineFault>
        requires newline { size ≤ whole }
        requires some { 0 < whole }
        requires held { whole ≤ length self.old.kept }
        ensures { Takes size whole self.old self.new result }
    {
        let raw = &self.window.bytes()[self.lent..self.lent + size];
        let text = text(raw).len();
        if size > LINE_MOST {
            self.refuse();
            return Err(LineFault::LineTooLong);
        }
        self.window.pass(self.lent);
        self.lent = whole;
        self.text = text;
        self.searched = 0;
        self.place += whole as u64;
        if text > 0 {
            self.line = self.number;
        }
        self.number += 1;
        self.wants = false;
        Ok(text > 0)
    }

    /// Goes on to the next line that is held with its newline, and lends it.
    fn lend_held(&mut self) -> Result<bool, LineFault>
        requires live { self.old.live ≡ true }
        ensures { Holds self.old self.new result }
    {
        while let Some(end) = self.first_newline() {
            if self.lend_line(end, end + 1)? {
                return Ok(true);
            }
        }
        Ok(false)
    }

    /// Tells whether it wants bytes, where no newline is held.
    fn want(&mut self, wants: bool)
        requires { wants ≡ true → Dry self.old }
        ensures { self.new ≡ wanting wants self.old }
    {
        self.wants = wants;
    }

    /// Takes what is held behind the last newline: it is too long for a line, or the last line of a whole file, or more bytes are wanted.
    fn lend_last(&mut self) -> Result<bool, LineFault>
        requires live { self.old.live ≡ true }
        requires none { HasNoNewline self.old.kept }
        ensures { Sought self.old self.new result }
    {
        let size = self.size();
        if size > LINE_MOST {
            self.refuse();
            return Err(LineFault::LineTooLong);
        }
        let ended = self.ended();
        if ended && size > 0 {
            return self.lend_line(size, size);
        }
        self.want(!ended);
        Ok(false)
    }

    /// Goes on to the next line that is held whole, and lends it. False where there is none: then the reader wants bytes, or the file is at its end.
    ///
    /// Cost: each byte is looked at once, in however many calls. Reads nothing, and takes no memory.
    pub fn seek(&mut self) -> Result<bool, LineFault>
        requires live { self.old.live ≡ true }
        ensures lines { (file : File) → Stands file self.old
            → MatchResult result (λ lent. Seeks lent (left_in file self.old) self.new (left_in file self.new)) (λ _. Refuses (left_in file self.old) self.new) }
        ensures stands { OnOk result ((file : File) → Stands file self.old → Stands file self.new) }
        ensures fault { IfErr result (λ f. f ≡ LineTooLong) }
        ensures name { self.new.name ≡ self.old.name }
        ensures live { OnOk result (self.new.live ≡ true) }
        ensures dead { OnErr result (self.new.live ≡ false) }
        ensures wants { IfOk result (λ lent. lent ≡ true → self.new.wants ≡ false) }
        ensures less { IfOk result (λ lent. lent ≡ true → left_over self.new < left_over self.old) }
        ensures no_more { left_over self.new ≤ left_over self.old }
        ensures later { IfOk result (λ lent. lent ≡ true → self.old.line < self.new.line) }
        ensures line { TellsLine self.old self.new result }
        ensures reading { (now : Option (List Reading)) → GoesOnReading self.old self.new now now }
    {
        if self.lend_held()? {
            return Ok(true);
        }
        self.lend_last()
    }

    /// Looks whether the file ends at the place `at`, behind what is held.
    fn see_end<H: Shelf>(&mut self, shelf: &mut H, at: u64) -> Result<(), LineFault>
        requires onward { IsOnward self.old.name at (H.readings shelf.old) }
        ensures read { HasReadOn self.old self.new at result (H.readings shelf.old) (H.readings shelf.new) }
        ensures reader { SeesEnd self.old self.new result }
        ensures bytes { (f : List ℕ → File) → H.files shelf.old ≡ Some f → EndsAt (f self.old.name) at result }
        ensures same { H.files shelf.new ≡ H.files shelf.old }
        ensures later { H.faults shelf.old ≤ H.faults shelf.new }
        ensures ok { OnOk result (H.faults shelf.new ≡ H.faults shelf.old) }
        ensures cause { IfErr result (λ f. f ≡ Fault → Rose (H.faults shelf.old) (H.faults shelf.new) (H.at_last shelf.new)) }
        ensures count { IfErr result (λ f. f ≢ Fault → H.faults shelf.new ≡ H.faults shelf.old) }
    {
        let mut byte = [0u8; 1];
        self.wants = false;
        match shelf.read_at(self.name, at, &mut byte) {
            Ok(0) => {
                self.ended = true;
                Ok(())
            }
            Ok(_) => {
                self.line = self.number;
                self.live = false;
                Err(LineFault::FileTooLong)
            }
            Err(_) => {
                self.live = false;
                Err(LineFault::Fault)
            }
        }
    }

    /// Reads a piece of the file from the place `at` on, behind what is held.
    fn read_on<H: Shelf>(&mut self, shelf: &mut H, at: u64, most: u64) -> Result<(), LineFault>
        requires short { length self.old.kept ≤ LINE_MOST }
        requires some { 0 < most }
        requires place { self.old.place + length self.old.kept + most ≤ file_most }
        requires onward { IsOnward self.old.name at (H.readings shelf.old) }
        ensures read { HasReadOn self.old self.new at result (H.readings shelf.old) (H.readings shelf.new) }
        ensures reader { Grew most self.old self.new result }
        ensures bytes { (f : List ℕ → File) → H.files shelf.old ≡ Some f → GrewIn (f self.old.name) at self.old self.new result }
        ensures same { H.files shelf.new ≡ H.files shelf.old }
        ensures later { H.faults shelf.old ≤ H.faults shelf.new }
        ensures ok { OnOk result (H.faults shelf.new ≡ H.faults shelf.old) }
        ensures cause { IfErr result (λ f. f ≡ Fault → Rose (H.faults shelf.old) (H.faults shelf.new) (H.at_last shelf.new)) }
        ensures count { IfErr result (λ f. f ≢ Fault → H.faults shelf.new ≡ H.faults shelf.old) }
    {
        self.wants = false;
        self.window.pass(self.lent);
        self.lent = 0;
        self.text = 0;
        match self.window.fill(shelf, self.name, at, most as usize) {
            Ok(count) => {
                self.ended = count == 0;
                Ok(())
            }
            Err(_) => {
                self.live = false;
                Err(LineFault::Fault)
            }
        }
    }

    /// Reads a piece of the file behind what is held, or sees that the file is at its end. Each byte is asked for once, from the beginning of the file onward.
    pub fn fill<H: Shelf>(&mut self, shelf: &mut H) -> Result<(), LineFault>
        requires live { self.old.live ≡ true }
        requires wants { self.old.wants ≡ true }
        requires reading { IsReading self.old (H.readings shelf.old) }
        ensures reading { OnOk result (GoesOnReading self.old self.new (H.readings shelf.old) (H.readings shelf.new)) }
        ensures once { HasReadOnce self.old (H.readings shelf.old) (H.readings shelf.new) }
        ensures lines { (f : List ℕ → File) → H.files shelf.old ≡ Some f → Stands (f self.old.name) self.old
            → MatchResult result
            (λ _. left_in (f self.old.name) self.new ≡ left_in (f self.old.name) self.old)
            (λ fault. Stops (left_in (f self.old.name) self.old) self.new fault) }
        ensures stands { OnOk result ((f : List ℕ → File) → H.files shelf.old ≡ Some f → Stands (f self.old.name) self.old
            → Stands (f self.old.name) self.new) }
        ensures fault { IfErr result (λ f. f ≢ LineTooLong) }
        ensures name { self.new.name ≡ self.old.name }
        ensures live { OnOk result (self.new.live ≡ true) }
        ensures dead { OnErr result (self.new.live ≡ false) }
        ensures line { FillsLine self.old self.new result }
        ensures less { OnOk result (left_over self.new < left_over self.old) }
        ensures same { H.files shelf.new ≡ H.files shelf.old }
        ensures later { H.faults shelf.old ≤ H.faults shelf.new }
        ensures ok { OnOk result (H.faults shelf.new ≡ H.faults shelf.old) }
        ensures cause { IfErr result (λ f. f ≡ Fault → Rose (H.faults shelf.old) (H.faults shelf.new) (H.at_last shelf.new)) }
        ensures count { IfErr result (λ f. f ≢ Fault → H.faults shelf.new ≡ H.faults shelf.old) }
    {
        let at = self.end_place();
        if at == FILE_MOST {
            return self.see_end(shelf, at);
        }
        self.read_on(shelf, at, FILE_MOST - at)
    }

    /// Goes on to the next line, and tells whether there is one: it is lent as `held`. False at the end of the file. What is not held is read.
    ///
    /// Cost: linear in the bytes that are read, whatever the pieces are that the shelf gives. Takes no memory.
    pub fn advance<H: Shelf>(&mut self, shelf: &mut H) -> Result<bool, LineFault>
        requires live { self.old.live ≡ true }
        requires reading { IsReading self.old (H.readings shelf.old) }
        ensures line { TellsLine self.old self.new result }
        ensures reading { OnOk result (GoesOnReading self.old self.new (H.readings shelf.old) (H.readings shelf.new)) }
        ensures once { HasReadOnce self.old (H.readings shelf.old) (H.readings shelf.new) }
        ensures lines { (f : List ℕ → File) → H.files shelf.old ≡ Some f → Stands (f self.old.name) self.old
            → MatchResult result
            (λ lent. Advances lent (left_in (f self.old.name) self.old) self.new (left_in (f self.old.name) self.new))
            (λ fault. Stops (left_in (f self.old.name) self.old) self.new fault) }
        ensures stands { OnOk result ((f : List ℕ → File) → H.files shelf.old ≡ Some f → Stands (f self.old.name) self.old
            → Stands (f self.old.name) self.new) }
        ensures name { self.new.name ≡ self.old.name }
        ensures live { OnOk result (self.new.live ≡ true) }
        ensures dead { OnErr result (self.new.live ≡ false) }
        ensures less { IfOk result (λ lent. lent ≡ true → left_over self.new < left_over self.old) }
        ensures same { H.files shelf.new ≡ H.files shelf.old }
        ensures later { H.faults shelf.old ≤ H.faults shelf.new }
        ensures ok { OnOk result (H.faults shelf.new ≡ H.faults shelf.old) }
        ensures cause { IfErr result (λ f. f ≡ Fault → Rose (H.faults shelf.old) (H.faults shelf.new) (H.at_last shelf.new)) }
        ensures count { IfErr result (λ f. f ≢ Fault → H.faults shelf.new ≡ H.faults shelf.old) }
    {
        loop {
            if self.seek()? {
                return Ok(true);
            }
            if !self.wants() {
                return Ok(false);
            }
            self.fill(shelf)?;
        }
    }

    /// Lends the next line, and None at the end of the file. It is `advance` and then `held`.
    pub fn next<'l, H: Shelf>(&'l mut self, shelf: &mut H) -> Result<Option<&'l [u8]>, LineFault>
        requires live { self.old.live ≡ true }
        requires reading { IsReading self.old (H.readings shelf.old) }
        ensures* after_borrow { sem 𝓛 (RestsNext (H.files shelf.old) (H.readings shelf.old) (H.readings shelf.new) self.entry self.old result) }
        ensures once { HasReadOnce self.old (H.readings shelf.old) (H.readings shelf.new) }
        ensures same { H.files shelf.new ≡ H.files shelf.old }
        ensures later { H.faults shelf.old ≤ H.faults shelf.new }
        ensures ok { OnOk result (H.faults shelf.new ≡ H.faults shelf.old) }
        ensures cause { IfErr result (λ f. f ≡ Fault → Rose (H.faults shelf.old) (H.faults shelf.new) (H.at_last shelf.new)) }
        ensures count { IfErr result (λ f. f ≢ Fault → H.faults shelf.new ≡ H.faults shelf.old) }
    {
        if self.advance(shelf)? {
            return Ok(Some(self.held()));
        }
        Ok(None)
    }
}
