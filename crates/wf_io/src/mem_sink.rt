// A sink in memory.
ghost use Rattle.std.specs.Prelude.{◌≡◌, ◌+◌, ◌-◌, ◌^◌, ◌≤◌, ◌++◌, ◌↔◌, nat_eq, min, ℕ, [], List, length, take, Some, IfOk, OnOk, OnErr, IsOk, IsErr};
ghost use Rattle.wf_io.specs.Told.{Rose};

use crate::outside::{Failed, Sink};
use std::alloc::{AllocError, Global};
use std::marker::Model;

/// A sink in memory that has room for so many bytes. It tells what was put.
///
/// The count of faults stays at 2^64 - 1 once it is there.
#[derive(Drop)]
pub struct MemSink {
    bytes: Vec<u8>,
    room: usize,
    faults: u64,
}

impl Model for MemSink {
    ghost use Rattle.std.specs.Prelude.{◌≤◌, vec_len, vec_capacity};
    ghost use Rattle.wf_io.specs.Stored.{Written};

    ghost Value = { Written };

    ghost view = { λ s. record { bytes = s.bytes.items; room = s.room; faults = s.faults } };

    ghost invariant = { λ s. (vec_len s.bytes ≤ s.room) × (s.room ≤ vec_capacity s.bytes) };
}

impl MemSink {
    /// A sink with room for `room` bytes, which takes its memory at once.
    pub fn new(alloc: Global, room: usize) -> Result<MemSink, AllocError>
        ensures { IfOk result (λ s. s ≡ record { bytes = []; room = room; faults = 0 }) }
    {
        Ok(MemSink {
            bytes: Vec::with_capacity(alloc, room)?,
            room,
            faults: 0,
        })
    }

    /// What was put.
    pub fn bytes(&self) -> &[u8]
        ensures { result.now ≡ self.now.bytes }
    {
        &self.bytes
    }
}

impl Sink for MemSink {
    ghost put_bytes = { λ s. Some s.bytes };

    ghost faults = { λ s. s.faults };

    ghost at_last = { λ s. nat_eq s.faults (2 ^ 64 - 1) };

    /// Puts as many bytes of the piece as there is room for. It fails exactly where that is not the whole piece.
    fn put(&mut self, piece: &[u8]) -> Result<(), Failed>
        ensures later { self.old.faults ≤ self.new.faults }
        ensures ok { OnOk result (self.new.bytes ≡ self.old.bytes ++ piece.now) }
        ensures ok_count { OnOk result (self.new.faults ≡ self.old.faults) }
        ensures err { OnErr result (self.new.bytes ≡ self.old.bytes ++ take (self.old.room - length self.old.bytes) piece.now) }
        ensures cause { IsErr result → Rose self.old.faults self.new.faults (nat_eq self.new.faults (2 ^ 64 - 1)) }
        ensures count { OnErr result (self.new.faults ≡ min (self.old.faults + 1) (2 ^ 64 - 1)) }
        ensures fits { IsOk result ↔ (length self.old.bytes + length piece.now ≤ self.old.room) }
        ensures room { self.new.room ≡ self.old.room }
    {
        let room = self.room - self.bytes.len();
        let fits = piece.len().min(room);
        let _ = self.bytes.extend_from_slice(&piece[..fits]);
        if fits < piece.len() {
            self.faults = self.faults.saturating_add(1);
            return Err(Failed);
        }
        Ok(())
    }
}
