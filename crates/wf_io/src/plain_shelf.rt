// A shelf of whole files in memory, which never fails.
ghost use Rattle.std.specs.Prelude.{◌≡◌, ◌≤◌, [], List, ℕ, length, MatchOption, IfOk, IsOk, None, Some, false};
ghost use Rattle.wf_io.specs.Stored.{stored_whole};
ghost use Rattle.wf_io.specs.Told.{File, Reads};

use crate::outside::{Failed, Shelf};
use crate::piece::copy_some;
use std::marker::Model;
use wf_model::{Name, Seq};

/// A whole file in memory.
#[derive(Drop)]
pub struct PlainFile {
    pub name: Name,
    pub bytes: Seq<u8>,
}

/// Whole files in memory. It tells its files and never fails.
///
/// Of two files of one name the first counts. A name that it does not hold is an empty whole file.
#[derive(Drop)]
pub struct PlainShelf {
    files: Seq<PlainFile>,
}

impl Model for PlainShelf {
    ghost use Rattle.std.specs.Prelude.{List};
    ghost use Rattle.wf_io.specs.declared.plain_shelf.PlainFile.{PlainFile};

    ghost Value = { List PlainFile };

    ghost view = { λ s. s.files };
}

impl PlainShelf {
    /// A shelf of these files. Takes no memory.
    pub fn new(files: Seq<PlainFile>) -> PlainShelf
        ensures { result ≡ files }
    {
        PlainShelf { files }
    }
}

fn find<'a>(files: &'a [PlainFile], name: &str) -> Option<&'a PlainFile>
    ensures { MatchOption result (stored_whole files.now name.now ≡ record { bytes = []; broken = false })
        (λ f. stored_whole files.now name.now ≡ record { bytes = f.now.bytes; broken = false }) }
{
    let mut rest = files;
    while let [first, others @ ..] = rest {
        if first.name.bytes() == name.as_bytes() {
            return Some(first);
        }
        rest = others;
    }
    None
}

impl Shelf for PlainShelf {
    ghost files = { λ s. Some (stored_whole s) };

    ghost readings = { λ _. None };

    ghost faults = { λ _. 0 };

    ghost at_last = { λ _. false };

    fn read_at(&mut self, name: &str, at: u64, buf: &mut [u8]) -> Result<usize, Failed>
        ensures bound { IfOk result (λ n. n ≤ length buf.old) }
        ensures empty { length buf.old ≡ 0 → result ≡ Ok 0 }
        ensures same { self.new ≡ self.old }
        ensures succeeds { IsOk result }
        ensures bytes { Reads (stored_whole self.old name.now) at (length buf.old) result buf.new }
    {
        let Some(file) = find(self.files.items(), name) else {
            return Ok(0);
        };
        let bytes = file.bytes.items();
        if at < bytes.len() as u64 {
            let room = buf.len();
            return Ok(copy_some(&bytes[at as usize..], buf, room));
        }
        Ok(0)
    }
}
