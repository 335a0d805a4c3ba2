// Files by their paths.
ghost use Rattle.std.specs.Prelude.{◌≡◌, ◌^◌, ◌-◌, ◌≤◌, nat_eq, None, Some, IfSome, length};

use crate::held_file::HeldFile;
use crate::read_once::ReadOnce;
use std::hash::{BuildHasher, RandomState};
use wf_io::{Failed, Shelf};

/// The files of the system, each by its path from the working folder. It does not tell its files.
///
/// The file that was read last stays open until one of another path is read, and goes before that one is opened. The count of faults stays at 2^64 - 1 once it is there. The key of tables is drawn once, and 0 where the system gives no random bytes.
#[derive(Drop)]
pub struct DirShelf<'r> {
    rt: &'r HostRuntime,
    held: Option<HeldFile>,
    read_once: ReadOnce,
    faults: u64,
    key: u64,
}

/// A random key, or 0 where the system gives no random bytes.
fn drawn_key(rt: &HostRuntime) -> u64 {
    match RandomState::new(rt) {
        Ok(state) => state.hash_one(0u64),
        Err(_) => 0,
    }
}

impl<'r> DirShelf<'r> {
    /// A shelf with no file open. Takes no memory.
    pub fn new(rt: &'r HostRuntime) -> DirShelf<'r> {
        DirShelf {
            rt,
            held: None,
            read_once: ReadOnce::new(),
            faults: 0,
            key: drawn_key(rt),
        }
    }
}

/// Opens the file of a path while none is held, so that no path can name a file that the program itself opened.
fn open_alone(rt: &HostRuntime, held: &mut Option<HeldFile>, read_once: &mut ReadOnce, name: &str)
    requires { held.old ≡ None }
{
    *held = HeldFile::open(rt, name, read_once);
}

/// Holds the file of a path. A file of another path that was held is let go, and closed, first.
fn hold(rt: &HostRuntime, held: &mut Option<HeldFile>, read_once: &mut ReadOnce, name: &str) {
    let is_held = match held {
        Some(file) => file.is_of(name),
        None => false,
    };
    if !is_held {
        *held = None;
        open_alone(rt, held, read_once, name);
    }
}

/// Reads from the file of a path, which is held from then on. It reads nothing into an empty buffer.
fn read_held(
    rt: &HostRuntime,
    held: &mut Option<HeldFile>,
    read_once: &mut ReadOnce,
    name: &str,
    at: u64,
    buf: &mut [u8],
) -> Option<usize>
    ensures bound { IfSome result (λ n. n ≤ length buf.old) }
    ensures empty { length buf.old ≡ 0 → result ≡ Some 0 }
{
    if buf.is_empty() {
        return Some(0);
    }
    hold(rt, held, read_once, name);
    held.as_mut()?.read_at(rt, at, buf)
}

impl<'r> Shelf for DirShelf<'r> {
    ghost files = { λ _. None };

    ghost readings = { λ _. None };

    ghost faults = { λ s. s.faults };

    ghost at_last = { λ s. nat_eq s.faults (2 ^ 64 - 1) };

    fn read_at(&mut self, name: &str, at: u64, buf: &mut [u8]) -> Result<usize, Failed> {
        match read_held(self.rt, &mut self.held, &mut self.read_once, name, at, buf) {
            Some(n) => Ok(n),
            None => {
                self.faults = self.faults.saturating_add(1);
                Err(Failed)
            }
        }
    }

    fn hash_key(&self) -> u64 {
        self.key
    }
}
