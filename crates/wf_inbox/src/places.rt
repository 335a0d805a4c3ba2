// The places of reports that are ready, the least first.
ghost use Rattle.std.specs.Prelude.{◌≡◌, ◌≤◌, ◌+◌, ◌∷◌, [], ℕ, MatchOption, IfSome, OnOk, IsPermutation};
ghost use Rattle.std.specs.List.{AllByRecursion};
ghost use Rattle.wf_inbox.specs.Places.{IsFirst};

use std::alloc::{AllocError, Global};
use std::cmp::Reverse;
use std::collections::BinaryHeap;
use std::marker::Model;

/// Places, of which the least is taken out first.
#[derive(Drop)]
pub(crate) struct Places {
    heap: BinaryHeap<Reverse<u32>>,
}

impl Model for Places {
    ghost use Rattle.std.specs.Prelude.{ℕ, List, map, ◌-◌};
    ghost use Rattle.std.specs.Ordering.{nat_cmp};
    ghost use Rattle.std.specs.BinaryHeap.{IsHeap, heap_items, heap_len, heap_capacity};
    ghost use Rattle.wf_inbox.specs.Places.{PlacesSeen};

    ghost Value = { PlacesSeen };

    ghost view = { λ p. record { places = map (λ r. r.0) (heap_items p.heap); spare = heap_capacity p.heap - heap_len p.heap } };

    ghost invariant = { λ p. IsHeap (λ x y. nat_cmp y.0 x.0) (heap_items p.heap) };
}

impl Places {
    /// No places. Takes no memory.
    pub(crate) fn new(alloc: Global) -> Places
        ensures { result.places ≡ [] }
    {
        Places {
            heap: BinaryHeap::new(alloc),
        }
    }

    /// Makes room for so many more.
    pub(crate) fn reserve(&mut self, more: usize) -> Result<(), AllocError>
        ensures room { OnOk result (more ≤ self.new.spare) }
        ensures spare { self.old.spare ≤ self.new.spare }
        ensures kept { self.new.places ≡ self.old.places }
    {
        self.heap.reserve(more)
    }

    /// Adds a place. Takes no memory.
    pub(crate) fn push(&mut self, place: u32)
        requires { 1 ≤ self.old.spare }
        ensures added { IsPermutation (place ∷ self.old.places) self.new.places }
        ensures spare { self.old.spare ≤ self.new.spare + 1 }
    {
        match self.heap.push(Reverse(place)) {
            Ok(()) => {}
            Err(_) => unreachable(),
        }
    }

    /// The least place.
    pub(crate) fn least(&self) -> Option<u32>
        ensures first { MatchOption result (self.now.places ≡ []) (λ p. IsFirst self.now.places p) }
        ensures least { IfSome result (λ p. AllByRecursion (λ q. p ≤ q) self.now.places) }
    {
        let Reverse(place) = *self.heap.peek()?;
        Some(place)
    }

    /// Takes the least place out.
    pub(crate) fn drop_least(&mut self)
        ensures taken { (p : ℕ) → IsFirst self.old.places p → IsPermutation self.old.places (p ∷ self.new.places) }
        ensures least { (p : ℕ) → IsFirst self.old.places p → AllByRecursion (λ q. p ≤ q) self.new.places }
        ensures spare { self.old.spare ≤ self.new.spare }
    {
        let _ = self.heap.pop();
    }
}
