// A file that is held open.
ghost use Rattle.std.specs.Prelude.{◌≡◌, ◌≢◌, ◌≤◌, ◌<◌, true, length, take, None, IfSome, MatchOption};
ghost use Rattle.std.specs.Io.KnownBytes.{Consumes, Keeps, IsAtEnd};

use crate::again::is_made_again;
use crate::read_once::{ReadOnce, id_of};
use std::fs::{self, File};
use std::io::{Read, Seek};
use std::os::unix::fs::FileExt;

/// More bytes than a path has that the system opens.
const PATH_MOST: usize = 4096;

/// An open file, and the path by which it was opened.
///
/// The path stands in a room of its own, so that no memory can be wanting where a file is opened.
#[derive(Drop)]
pub struct HeldFile {
    path: [u8; PATH_MOST],
    length: usize,
    file: File,
    /// Whether it cannot be read at a place, and so is read on from where it was read last.
    is_once: bool,
    /// The place up to which it was read on.
    place: u64,
    /// Whether it was read on to its end.
    ended: bool,
}

/// Reads from a place of a file.
fn read_from(rt: &HostRuntime, file: &File, at: u64, buf: &mut [u8]) -> Option<usize>
    ensures { IfSome result (λ n. n ≤ length buf.old) }
{
    for _ in 0..u64::MAX {
        match file.read_at(buf, at) {
            Ok(n) => return Some(n),
            Err(error) => {
                if !is_made_again(rt, &error) {
                    return None;
                }
            }
        }
    }
    None
}

/// Reads on from where it was read last. Of a reader whose bytes are known it gives the next ones.
fn read_on<R: Read>(rt: &HostRuntime, reader: &mut R, buf: &mut [u8]) -> Option<usize>
    ensures bound { IfSome result (λ n. n ≤ length buf.old) }
    ensures bytes { MatchOption result (Keeps (R.remaining reader.old) (R.remaining reader.new))
        (λ n. Consumes (R.remaining reader.old) (R.remaining reader.new) (take n buf.new)) }
    ensures end { IfSome result (λ n. n ≡ 0 → 0 < length buf.old → IsAtEnd (R.remaining reader.new)) }
{
    for _ in 0..u64::MAX {
        match reader.read(buf) {
            Ok(n) => return Some(n),
            Err(error) => {
                if !is_made_again(rt, &error) {
                    return None;
                }
            }
        }
    }
    None
}

impl HeldFile {
    /// Opens the file of a path. None where it cannot be opened, and where it can be read once alone and was opened before. Takes no memory.
    ///
    /// Whether it was opened before is asked before it is opened, since opening a pipe by its name may wait, and noted of the file that was opened.
    pub fn open(rt: &HostRuntime, name: &str, read_once: &mut ReadOnce) -> Option<HeldFile> {
        let bytes = name.as_bytes();
        let length = bytes.len();
        let mut path = [0u8; PATH_MOST];
        path.get_mut(..length)?.copy_from_slice(bytes);
        if read_once.has(id_of(&fs::metadata(rt, name).ok()?)) {
            return None;
        }
        let mut file = fs::open(rt, name).ok()?;
        let is_once = file.stream_position().is_err();
        if is_once && !read_once.note(id_of(&file.metadata().ok()?)) {
            return None;
        }
        Some(HeldFile {
            path,
            length,
            file,
            is_once,
            place: 0,
            ended: false,
        })
    }

    /// Whether it was opened by this path.
    pub fn is_of(&self, name: &str) -> bool {
        self.path.get(..self.length) == Some(name.as_bytes())
    }

    /// Reads from a place. A file that can be read once alone is read on, and to its end once: elsewhere, and behind its end, reading fails.
    pub fn read_at(&mut self, rt: &HostRuntime, at: u64, buf: &mut [u8]) -> Option<usize>
        requires room { 0 < length buf.old }
        ensures bound { IfSome result (λ n. n ≤ length buf.old) }
        ensures elsewhere { self.old.is_once ≡ true → at ≢ self.old.place → result ≡ None }
        ensures behind { self.old.is_once ≡ true → self.old.ended ≡ true → result ≡ None }
        ensures end { self.old.is_once ≡ true → result ≡ Some 0 → self.new.ended ≡ true }
        ensures same { self.new.is_once ≡ self.old.is_once }
    {
        if !self.is_once {
            return read_from(rt, &self.file, at, buf);
        }
        if self.ended || at != self.place {
            return None;
        }
        let count = read_on(rt, &mut self.file, buf)?;
        self.place = at.saturating_add(count as u64);
        self.ended = count == 0;
        Some(count)
    }
}
