// A sink over a standard stream.
ghost use Rattle.std.specs.Prelude.{◌≡◌, ◌^◌, ◌-◌, ℕ, nat_eq, None, true, false, take};
ghost use Rattle.std.specs.Io.KnownBytes.{Appends};

use crate::again::is_made_again;
use std::io::Write;
use wf_io::{Failed, Sink};

/// A sink over a writer. It does not tell what was put.
///
/// Each piece is written whole and flushed, in as many calls as it takes. A writer that takes none of what is left of a piece fails. The count of faults stays at 2^64 - 1 once it is there.
#[derive(Drop)]
pub struct StdSink<'r, W: Write + Drop> {
    rt: &'r HostRuntime,
    inner: W,
    faults: u64,
}

impl<'r, W: Write + Drop> StdSink<'r, W> {
    /// A sink over `inner`. Takes no memory.
    pub fn new(rt: &'r HostRuntime, inner: W) -> StdSink<'r, W> {
        StdSink {
            rt,
            inner,
            faults: 0,
        }
    }
}

/// Writes a piece whole and flushes it, and tells whether both succeeded. Otherwise a beginning of the piece was written.
#[tactic(auto, using(crate::proofs::Pieces::appends_more, crate::proofs::Pieces::appends_kept))]
fn put_whole<W: Write>(rt: &HostRuntime, inner: &mut W, piece: &[u8]) -> bool
    ensures whole { result ≡ true → Appends (W.contents inner.old) (W.contents inner.new) piece.now }
    ensures part { result ≡ false → (k : ℕ) × Appends (W.contents inner.old) (W.contents inner.new) (take k piece.now) }
{
    let mut done = 0;
    for _ in 0..u64::MAX {
        if done == piece.len() {
            return inner.flush().is_ok();
        }
        match inner.write(&piece[done..]) {
            Ok(0) => return false,
            Ok(count) => done += count,
            Err(error) => {
                if !is_made_again(rt, &error) {
                    return false;
                }
            }
        }
    }
    false
}

impl<'r, W: Write + Drop> Sink for StdSink<'r, W> {
    ghost put_bytes = { λ _. None };

    ghost faults = { λ s. s.faults };

    ghost at_last = { λ s. nat_eq s.faults (2 ^ 64 - 1) };

    fn put(&mut self, piece: &[u8]) -> Result<(), Failed> {
        if put_whole(self.rt, &mut self.inner, piece) {
            return Ok(());
        }
        self.faults = self.faults.saturating_add(1);
        Err(Failed)
    }
}
