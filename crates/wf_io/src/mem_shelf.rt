// A shelf in memory, for trying how a program meets small pieces and faults.
ghost use Rattle.std.specs.Prelude.{◌≡◌, ◌+◌, ◌-◌, ◌^◌, ◌≤◌, min, nat_eq, [], List, ℕ, length, MatchOption, IfOk, IfErr, OnErr, OnOk, IsErr, None, Some, true};
ghost use Rattle.wf_io.specs.Stored.{stored};
ghost use Rattle.wf_io.specs.Told.{File, Rose, Reads};

use crate::outside::{Failed, Shelf};
use crate::piece::copy_some;
use std::marker::Model;
use wf_model::{Name, Seq};

/// A file in memory. Reading past the bytes of a broken one fails.
#[derive(Drop)]
pub struct MemFile {
    pub name: Name,
    pub bytes: Seq<u8>,
    pub broken: bool,
}

/// Files in memory, of which a call reads at most `piece` bytes. It tells its files.
///
/// Of two files of one name the first counts. A name that it does not hold has no bytes and is broken. The count of
/// faults stays at 2^64 - 1 once it is there. A call looks at the files one after the other.
#[derive(Drop)]
pub struct MemShelf {
    files: Seq<MemFile>,
    piece: u32,
    faults: u64,
}

impl Model for MemShelf {
    ghost use Rattle.std.specs.Prelude.{◌≤◌};
    ghost use Rattle.wf_io.specs.Stored.{Stock};

    ghost Value = { Stock };

    ghost view = { λ s. record { files = s.files; piece = s.piece; faults = s.faults } };

    ghost invariant = { λ s. 1 ≤ s.piece };
}

impl MemShelf {
    /// A shelf of these files, of which a call reads at most `piece` bytes. Takes no memory.
    pub fn new(files: Seq<MemFile>, piece: u32) -> MemShelf
        requires { 1 ≤ piece }
        ensures { result ≡ record { files = files; piece = piece; faults = 0 } }
    {
        MemShelf {
            files,
            piece,
            faults: 0,
        }
    }

    /// How often a call failed.
    pub fn faults(&self) -> u64
        ensures { result ≡ self.now.faults }
    {
        self.faults
    }

    /// Counts a call that failed.
    pub(crate) fn count_fault(&mut self)
        ensures count { self.new ≡ record { files = self.old.files; piece = self.old.piece; faults = min (self.old.faults + 1) (2 ^ 64 - 1) } }
        ensures later { self.old.faults ≤ self.new.faults }
    {
        self.faults = self.faults.saturating_add(1);
    }
}

fn find<'a>(files: &'a [MemFile], name: &str) -> Option<&'a MemFile>
    ensures { MatchOption result (stored files.now name.now ≡ record { bytes = []; broken = true })
        (λ f. stored files.now name.now ≡ record { bytes = f.now.bytes; broken = f.now.broken }) }
{
    let mut rest = files;
    while let [first, others @ ..] = rest {
        if first.name.bytes() == name.as_bytes() {
            return Some(first);
        }
        rest = others;
    }
    None
}

/// Reads at most `most` bytes of a file.
fn read(
    files: &[MemFile],
    name: &str,
    at: u64,
    buf: &mut [u8],
    most: usize,
) -> Result<usize, Failed>
    requires { 1 ≤ most }
    ensures bound { IfOk result (λ n. n ≤ length buf.old) }
    ensures most { IfOk result (λ n. n ≤ most) }
    ensures empty { length buf.old ≡ 0 → result ≡ Ok 0 }
    ensures bytes { Reads (stored files.now name.now) at (length buf.old) result buf.new }
{
    if buf.is_empty() {
        return Ok(0);
    }
    let Some(file) = find(files, name) else {
        return Err(Failed);
    };
    let bytes = file.bytes.items();
    if at < bytes.len() as u64 {
        return Ok(copy_some(&bytes[at as usize..], buf, most));
    }
    if file.broken {
        return Err(Failed);
    }
    Ok(0)
}

impl Shelf for MemShelf {
    ghost files = { λ s. Some (stored s.files) };

    ghost readings = { λ _. None };

    ghost faults = { λ s. s.faults };

    ghost at_last = { λ s. nat_eq s.faults (2 ^ 64 - 1) };

    fn read_at(&mut self, name: &str, at: u64, buf: &mut [u8]) -> Result<usize, Failed>
        ensures bound { IfOk result (λ n. n ≤ length buf.old) }
        ensures most { IfOk result (λ n. n ≤ self.old.piece) }
        ensures empty { length buf.old ≡ 0 → result ≡ Ok 0 }
        ensures same { (self.new.files ≡ self.old.files) × (self.new.piece ≡ self.old.piece) }
        ensures later { self.old.faults ≤ self.new.faults }
        ensures ok { OnOk result (self.new.faults ≡ self.old.faults) }
        ensures cause { IsErr result → Rose self.old.faults self.new.faults (nat_eq self.new.faults (2 ^ 64 - 1)) }
        ensures count { OnErr result (self.new.faults ≡ min (self.old.faults + 1) (2 ^ 64 - 1)) }
        ensures bytes { Reads (stored self.old.files name.now) at (length buf.old) result buf.new }
    {
        let answer = read(self.files.items(), name, at, buf, self.piece as usize);
        if answer.is_err() {
            self.count_fault();
        }
        answer
    }
}
