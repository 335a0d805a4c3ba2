// A shelf of files and a sink.
ghost use Rattle.std.specs.Prelude.{◌≡◌, ◌<◌, ◌≤◌, ◌++◌, ℕ, Bool, List, length, take, Option, Some, option_map, IfOk, OnOk, IsErr};
ghost use Rattle.wf_io.specs.Told.{File, Rose, Reads};
ghost use Rattle.wf_io.specs.Readings.{Reading, IsOnward, IsReadOn, bytes_read};

/// A call to the outside failed.
#[derive(Clone, Copy, Debug, PartialEq, Eq)]
pub struct Failed;

/// Files by name, which are read in pieces.
pub trait Shelf {
    /// The file of each name, where the shelf tells its files.
    ghost files: { Self → Option (List ℕ → File) };

    /// How its files were read, the last reading first, where the shelf tells this.
    ghost readings: { Self → Option (List Reading) };

    /// How often a call failed. It starts at 0 and may stay at a last value.
    ghost faults: { Self → ℕ };

    /// Whether that count stands at its last value.
    ghost at_last: { Self → Bool };

    /// Reads bytes of the file `name` from the place `at` on into the beginning of `buf`, and gives their number.
    ///
    /// A call begins to read the file at its beginning, or goes on where the call before it stopped in the same file. So
    /// a pipe may stand for a file that is begun once.
    ///
    /// Before the end of a file it gives at least one byte where `buf` has room. 0 is the end of the file. A call fails
    /// only where the count of faults rises; of a file that is told, only at the end of a broken one.
    fn read_at(&mut self, name: &str, at: u64, buf: &mut [u8]) -> Result<usize, Failed>
        requires onward { IsOnward name.now at (readings self.old) }
        ensures bound { IfOk result (λ n. n ≤ length buf.old) }
        ensures empty { length buf.old ≡ 0 → result ≡ Ok 0 }
        ensures moved { IsReadOn name.now at (bytes_read result) (readings self.old) (readings self.new) }
        ensures same { files self.new ≡ files self.old }
        ensures later { faults self.old ≤ faults self.new }
        ensures ok { OnOk result (faults self.new ≡ faults self.old) }
        ensures cause { IsErr result → Rose (faults self.old) (faults self.new) (at_last self.new) }
        ensures bytes { (f : List ℕ → File) → files self.old ≡ Some f → Reads (f name.now) at (length buf.old) result buf.new };

    /// A number that those who write the files do not know, and 0 where the shelf has none. Tables of names are hashed
    /// with it. No clause says anything of it: no answer, no order and no text rests on it.
    fn hash_key(&self) -> u64 {
        0
    }
}

/// Text is put into it, one piece after the other.
pub trait Sink {
    /// The bytes that were put, where the sink tells them.
    ghost put_bytes: { Self → Option (List ℕ) };

    /// How often a call failed. It starts at 0 and may stay at a last value.
    ghost faults: { Self → ℕ };

    /// Whether that count stands at its last value.
    ghost at_last: { Self → Bool };

    /// Puts the piece behind what was put before. Where it fails, the first bytes of the piece may have been put, and
    /// the count of faults rises.
    fn put(&mut self, piece: &[u8]) -> Result<(), Failed>
        ensures later { faults self.old ≤ faults self.new }
        ensures ok { OnOk result (put_bytes self.new ≡ option_map (λ b. b ++ piece.now) (put_bytes self.old)) }
        ensures ok_count { OnOk result (faults self.new ≡ faults self.old) }
        ensures err { IsErr result → (k : ℕ) × (put_bytes self.new ≡ option_map (λ b. b ++ take k piece.now) (put_bytes self.old)) }
        ensures cause { IsErr result → Rose (faults self.old) (faults self.new) (at_last self.new) };
}
