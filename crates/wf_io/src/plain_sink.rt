// A sink that keeps a number only.
ghost use Rattle.std.specs.Prelude.{◌≡◌, ◌+◌, ◌-◌, ◌^◌, min, None, false, ℕ, length, IsOk};

use crate::outside::{Failed, Sink};
use std::marker::Model;

/// A sink that counts the bytes that are put and keeps none. It never fails, and tells no bytes.
#[derive(Drop)]
pub struct PlainSink {
    count: u64,
}

impl Model for PlainSink {
    ghost use Rattle.std.specs.Prelude.{ℕ};

    ghost Value = { ℕ };

    ghost view = { λ s. s.count };
}

impl PlainSink {
    pub fn new() -> PlainSink
        ensures { result ≡ 0 }
    {
        PlainSink { count: 0 }
    }

    /// The number of bytes put, which stays at 2^64 - 1 once it is there.
    pub fn length(&self) -> u64
        ensures { result ≡ self.now }
    {
        self.count
    }
}

impl Sink for PlainSink {
    ghost put_bytes = { λ _. None };

    ghost faults = { λ _. 0 };

    ghost at_last = { λ _. false };

    fn put(&mut self, piece: &[u8]) -> Result<(), Failed>
        ensures count { self.new ≡ min (self.old + length piece.now) (2 ^ 64 - 1) }
        ensures succeeds { IsOk result }
    {
        self.count = self.count.saturating_add(piece.len() as u64);
        Ok(())
    }
}
