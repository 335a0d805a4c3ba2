// A shelf that fails after so many calls, for trying how a program meets faults.
ghost use Rattle.std.specs.Prelude.{◌≡◌, ◌+◌, ◌-◌, ◌^◌, ◌<◌, ◌≤◌, min, cond, nat_eq, nat_lt, List, ℕ, None, length, IfOk, OnErr, OnOk, IsErr};
ghost use Rattle.wf_io.specs.Stored.{stored};
ghost use Rattle.wf_io.specs.Told.{File, Rose, Reads};

use crate::mem_shelf::MemShelf;
use crate::outside::{Failed, Shelf};
use std::marker::Model;

/// A shelf in memory that passes so many calls of `read_at` on, and then fails every call. It does not tell its files.
///
/// Its failures count among those of the shelf in memory. A call whose buffer has no room reads nothing, never fails,
/// and is not counted.
#[derive(Drop)]
pub struct FuseShelf {
    inner: MemShelf,
    calls: u64,
}

impl Model for FuseShelf {
    ghost use Rattle.wf_io.specs.Stored.{Fuse};

    ghost Value = { Fuse };

    ghost view = { λ s. record { stock = s.inner; calls = s.calls } };
}

impl FuseShelf {
    /// A shelf that passes `calls` calls on to this one. Takes no memory.
    pub fn new(inner: MemShelf, calls: u64) -> FuseShelf
        ensures { result ≡ record { stock = inner; calls = calls } }
    {
        FuseShelf { inner, calls }
    }

    /// How often a call failed, on this shelf and on the one that it passes calls on to.
    pub fn faults(&self) -> u64
        ensures { result ≡ self.now.stock.faults }
    {
        self.inner.faults()
    }
}

impl Shelf for FuseShelf {
    ghost files = { λ _. None };

    ghost readings = { λ _. None };

    ghost faults = { λ s. s.stock.faults };

    ghost at_last = { λ s. nat_eq s.stock.faults (2 ^ 64 - 1) };

    fn read_at(&mut self, name: &str, at: u64, buf: &mut [u8]) -> Result<usize, Failed>
        ensures bound { IfOk result (λ n. n ≤ length buf.old) }
        ensures empty { length buf.old ≡ 0 → result ≡ Ok 0 }
        ensures calls { self.new.calls ≡ self.old.calls - cond (nat_lt 0 (length buf.old)) 1 0 }
        ensures passed { 0 < self.old.calls → Reads (stored self.old.stock.files name.now) at (length buf.old) result buf.new }
        ensures spent { self.old.calls ≡ 0 → 0 < length buf.old → IsErr result }
        ensures same { (self.new.stock.files ≡ self.old.stock.files) × (self.new.stock.piece ≡ self.old.stock.piece) }
        ensures later { self.old.stock.faults ≤ self.new.stock.faults }
        ensures ok { OnOk result (self.new.stock.faults ≡ self.old.stock.faults) }
        ensures cause { IsErr result → Rose self.old.stock.faults self.new.stock.faults (nat_eq self.new.stock.faults (2 ^ 64 - 1)) }
        ensures count { OnErr result (self.new.stock.faults ≡ min (self.old.stock.faults + 1) (2 ^ 64 - 1)) }
    {
        if buf.is_empty() {
            return Ok(0);
        }
        if self.calls == 0 {
            self.inner.count_fault();
            return Err(Failed);
        }
        self.calls -= 1;
        self.inner.read_at(name, at, buf)
    }
}
