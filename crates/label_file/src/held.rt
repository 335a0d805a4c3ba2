// An entry that is held, as a key of a table.
ghost use Rattle.std.specs.Prelude.{◌≡◌, ◌==◌, ◌^◌, ◌<◌};
ghost use Rattle.std.specs.Hash as fed;
ghost use Rattle.std.specs.Cmp.Rules.{comparing, hashing};
ghost use Rattle.std.proofs.Common.{rules};

use std::hash::{Hash, Hasher};
use std::marker::Model;
use std::mem::size_of;

/// Where an entry of a label file stands, in 64 bits: a number of 31 bits, by which it is found; the place in the file where it begins, of 30 bits; and in 3 bits how many zero bits fill the last byte of its label. Two of one number are equal.
#[derive(Drop)]
pub struct EntryKey {
    word: u64,
}

// A store holds millions of entries.
const _: () = prove!(size_of::<EntryKey>() == 8);

impl Model for EntryKey {
    ghost use Rattle.std.specs.Prelude.{◌/◌, ◌%◌, ◌^◌};
    ghost use Rattle.label_file.specs.Keys.{EntryAt};

    ghost Value = { EntryAt };

    ghost view = { λ k. record { number = k.word / 2 ^ 33; place = k.word / 8 % 2 ^ 30; padding = k.word % 8 } };
}

impl EntryKey {
    /// The key of an entry.
    pub(crate) fn new(number: u32, place: u32, padding: u8) -> EntryKey
        requires number { number < 2 ^ 31 }
        requires place { place < 2 ^ 30 }
        requires padding { padding < 8 }
        ensures number { result.number ≡ number }
        ensures place { result.place ≡ place }
        ensures padding { result.padding ≡ padding }
    {
        EntryKey {
            word: number as u64 * (1 << 33) + place as u64 * 8 + padding as u64,
        }
    }

    /// The number.
    fn number(&self) -> u32
        ensures { result ≡ self.now.number }
    {
        (self.word / (1 << 33)) as u32
    }

    /// The place where the entry begins.
    pub(crate) fn place(&self) -> u32
        ensures { result ≡ self.now.place }
    {
        (self.word / 8 % (1 << 30)) as u32
    }

    /// How many zero bits fill the last byte of the label.
    pub(crate) fn padding(&self) -> u8
        ensures { result ≡ self.now.padding }
    {
        (self.word % 8) as u8
    }
}

impl PartialEq for EntryKey {
    ghost eq = { λ a b. a.number == b.number };

    ghost laws = { Prim.search (comparing, rules) };

    fn eq(&self, other: &EntryKey) -> bool {
        self.number() == other.number()
    }
}

impl Eq for EntryKey {
    ghost laws = { Prim.search (comparing, rules) };
}

impl Hash for EntryKey {
    ghost hash_input = { λ k. fed.u32 k.number };

    ghost respects_eq = { Prim.search (hashing, rules) };

    fn hash<H: Hasher>(&self, state: &mut H) {
        state.write_u32(self.number());
    }
}
