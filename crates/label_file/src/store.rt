// The entries of a label file, found by name.
ghost use Rattle.std.specs.Prelude.{◌≡◌, ◌<◌, ◌≤◌, ◌+◌, ◌-◌, ◌*◌, ◌^◌, length, drop, get_or, OnOk, IfOk, IfErr, IfSome, IfNone};
ghost use Rattle.bit_pack.specs.Written.{IsFilled};
ghost use Rattle.wf_model.specs.Lists.{IsIn};
ghost use Rattle.label_file.specs.Stored.{IsStoreFault, IsStoreOf, names_held, no_entry};
ghost use Rattle.label_model.specs.Files.{IsFront};
ghost use Rattle.label_file.specs.Layout.{entry_at_front};
ghost use Rattle.label_file.specs.Keys.{held};
ghost use Rattle.label_file.specs.Adding.{IsAdded, IsRefused};
ghost use Rattle.label_file.specs.Hashed.{AreKeysIn, IsHashed};

use crate::ahead::Ahead;
use crate::fault::StoreFault;
use crate::front::{Front, count_entries, cut_front};
use crate::guesses::{GUESSES, Guesses, guess_all};
use crate::head::behind_head;
use crate::held::EntryKey;
use crate::key::HashedName;
use crate::table::{find, find_guessed, front_of, holds, label_of, put};
use indexmap::IndexSet;
use name_text::split_item;
use std::alloc::Global;
use std::marker::Model;
use wf_label::{Checker, LabelRef};
use wf_names::KeyedHash;
use wf_recur::Linear;

/// How many bits of bytes are not among the first bits, so many, which fill them.
fn padding_behind(bytes: &[u8], bits: u32) -> u8
    requires filled { IsFilled bytes.now bits }
    requires few { length bytes.now < 2 ^ 16 }
    ensures padded { result ≤ 8 * length bytes.now }
    ensures bits { 8 * length bytes.now - result ≡ bits }
    ensures few { result < 8 }
{
    (8 * bytes.len() as u32 - bits) as u8
}

/// Adds an entry behind the others, if its name is that of an item, no entry before has the name, and its label is one of the grammar. The first of these that is wrong is told in this order. After an error the entries are good for nothing.
///
/// Where the name is likely new, it is looked up no sooner than it is put, or its label is found wrong.
fn add<'a>(
    checker: &mut Checker<'_>,
    keyed: &KeyedHash,
    bytes: &[u8],
    entries: &mut IndexSet<EntryKey>,
    place: u32,
    front: Front<'a>,
    name: HashedName<'a>,
    is_likely_new: bool,
) -> Result<(), StoreFault>
    requires entries { AreKeysIn keyed.now bytes.now entries.old.keys }
    requires place { place < 2 ^ 30 }
    requires front { IsFront (entry_at_front front) (drop place bytes.now) front.rest.now }
    requires name { name.bytes.now ≡ front.name.now }
    requires hashed { IsHashed keyed.now name }
    requires room { length entries.old.keys + 1 < 2 ^ 32 }
    ensures added { OnOk result (IsAdded checker.old (held bytes.now entries.old.keys) (entry_at_front front.entry) (held bytes.now entries.new.keys)) }
    ensures keys { OnOk result (AreKeysIn keyed.now bytes.now entries.new.keys) }
    ensures refused { IfErr result (λ f. IsRefused checker.old (held bytes.now entries.old.keys) (entry_at_front front.entry) f) }
    ensures same { checker.new ≡ checker.old }
{
    let entry = entries.len() as u32;
    if split_item(front.name).is_none() {
        return Err(StoreFault::BadName { entry });
    }
    if !is_likely_new && holds(keyed, bytes, entries, name) {
        return Err(StoreFault::NameTwice { entry });
    }
    let Ok(label) = checker.check(front.label) else {
        if holds(keyed, bytes, entries, name) {
            return Err(StoreFault::NameTwice { entry });
        }
        return Err(StoreFault::BadLabel { entry });
    };
    let padding = padding_behind(front.label, label.length());
    if !put(keyed, bytes, entries, name, place, padding)? {
        return Err(StoreFault::NameTwice { entry });
    }
    Ok(())
}

/// The entries of a label file, in the order of the file, found by name. It keeps no copy of a name or of a label: all are parts of the bytes of the file. An entry takes 8 bytes, and its place in the table 15 to 23 more.
#[derive(Drop)]
pub struct Store<'a> {
    keyed: KeyedHash,
    bytes: &'a [u8],
    entries: IndexSet<EntryKey>,
}

impl<'a> Model for Store<'a> {
    ghost use Rattle.std.specs.Prelude.{◌<◌, ◌^◌, List, length};
    ghost use Rattle.label_file.specs.Stored.{EntryHeld};
    ghost use Rattle.label_file.specs.Keys.{held};
    ghost use Rattle.label_file.specs.Hashed.{AreKeysIn};

    ghost Value = { List EntryHeld };

    ghost view = { λ s. held s.bytes.now s.entries.keys };

    ghost invariant = { λ s. (length s.entries.keys < 2 ^ 32) × AreKeysIn s.keyed s.bytes.now s.entries.keys };
}

impl<'a> Store<'a> {
    /// Reads the label file of a grammar with one of these digests, as `open_with_key` with the key 0.
    pub fn open(
        alloc: Global,
        g: Linear<'_>,
        digests: &[[u8; 32]],
        bytes: &'a [u8],
    ) -> Result<Store<'a>, StoreFault>
        requires few { length bytes.now ≤ 2 ^ 30 }
        ensures store { IfOk result (λ s. IsStoreOf g.entry.grammar.now.core digests.now bytes.now s) }
        ensures fault { IfErr result (λ f. IsStoreFault g.entry.grammar.now.core digests.now bytes.now f) }
    {
        Store::open_with_key(alloc, 0, g, digests, bytes)
    }

    /// Reads the label file of a grammar with one of these digests: its own, or that of a version of it that keeps its cycles.
    ///
    /// Of each entry it is tried in this order whether it is whole, whether its name is that of an item, whether no entry before has the name, and whether its label is one of the grammar.
    ///
    /// Cost: linear in the bytes, and one comparison for each digest; a name is found by hashing with the key. Takes memory for the table alone, once, for as many entries as stand there whole.
    pub fn open_with_key(
        alloc: Global,
        key: u64,
        g: Linear<'_>,
        digests: &[[u8; 32]],
        bytes: &'a [u8],
    ) -> Result<Store<'a>, StoreFault>
        requires few { length bytes.now ≤ 2 ^ 30 }
        ensures store { IfOk result (λ s. IsStoreOf g.entry.grammar.now.core digests.now bytes.now s) }
        ensures fault { IfErr result (λ f. IsStoreFault g.entry.grammar.now.core digests.now bytes.now f) }
    {
        let mut rest = behind_head(digests, bytes)?;
        let count = count_entries(rest);
        let keyed = KeyedHash::new(key);
        let mut entries = IndexSet::with_capacity(alloc, count)?;
        let mut ahead = Ahead::new();
        let mut checker = Checker::new(g);
        while !rest.is_empty() {
            let Some(front) = cut_front(rest) else {
                return Err(StoreFault::Truncated {
                    offset: (bytes.len() - rest.len()) as u64,
                });
            };
            let (name, is_likely_new) = ahead.next(&keyed, &entries, rest);
            let place = (bytes.len() - rest.len()) as u32;
            add(
                &mut checker,
                &keyed,
                bytes,
                &mut entries,
                place,
                front,
                name,
                is_likely_new,
            )?;
            rest = front.rest;
        }
        Ok(Store {
            keyed,
            bytes,
            entries,
        })
    }

    /// The label of the entry of this name; None where no entry has it.
    ///
    /// Cost: one look-up by hashing. Takes no memory.
    pub fn get(&self, name: &[u8]) -> Option<LabelRef<'a>>
        ensures found { IfSome result (λ l. IsIn (record { name = name.now; bits = l }) self.now) }
        ensures none { IfNone result (IsIn name.now (names_held self.now) → ⊥) }
    {
        let name = HashedName::new(&self.keyed, name);
        find(&self.keyed, self.bytes, &self.entries, name)
    }

    /// The labels of the entries of two names, each as `get` gives it.
    ///
    /// Cost: two look-ups by hashing, which wait for memory at one time. Takes no memory.
    pub fn get_both(
        &self,
        first: &[u8],
        second: &[u8],
    ) -> (Option<LabelRef<'a>>, Option<LabelRef<'a>>)
        ensures first_found { IfSome result.0 (λ l. IsIn (record { name = first.now; bits = l }) self.now) }
        ensures first_none { IfNone result.0 (IsIn first.now (names_held self.now) → ⊥) }
        ensures second_found { IfSome result.1 (λ l. IsIn (record { name = second.now; bits = l }) self.now) }
        ensures second_none { IfNone result.1 (IsIn second.now (names_held self.now) → ⊥) }
    {
        let first = HashedName::new(&self.keyed, first);
        let second = HashedName::new(&self.keyed, second);
        (
            find(&self.keyed, self.bytes, &self.entries, first),
            find(&self.keyed, self.bytes, &self.entries, second),
        )
    }

    /// Numbers of the entries that likely have these names, so many, each at the place of its name. Nothing is promised of them.
    pub(crate) fn guess(
        &self,
        names: &[&[u8]; GUESSES],
        count: usize,
        numbers: &mut [u32; GUESSES],
    ) {
        guess_all(
            &self.keyed,
            self.bytes,
            &self.entries,
            names,
            count,
            numbers,
        );
    }

    /// The labels of the entries of two names, each as `get` gives it. Of the entries that were guessed two are taken.
    ///
    /// Cost: two names compared where the entries were guessed, and else that of `get_both`. Takes no memory.
    pub fn get_both_guessed(
        &self,
        guesses: &mut Guesses,
        first: &[u8],
        second: &[u8],
    ) -> (Option<LabelRef<'a>>, Option<LabelRef<'a>>)
        ensures first_found { IfSome result.0 (λ l. IsIn (record { name = first.now; bits = l }) self.now) }
        ensures first_none { IfNone result.0 (IsIn first.now (names_held self.now) → ⊥) }
        ensures second_found { IfSome result.1 (λ l. IsIn (record { name = second.now; bits = l }) self.now) }
        ensures second_none { IfNone result.1 (IsIn second.now (names_held self.now) → ⊥) }
    {
        if guesses.are_taken() {
            return self.get_both(first, second);
        }
        let one = guesses.take();
        let two = guesses.take();
        (
            find_guessed(&self.keyed, self.bytes, &self.entries, one, first),
            find_guessed(&self.keyed, self.bytes, &self.entries, two, second),
        )
    }

    /// How many entries there are. Takes no memory.
    pub fn length(&self) -> u32
        ensures { result ≡ length self.now }
    {
        self.entries.len() as u32
    }

    /// The name of the entry of this number, from 0. Takes no memory.
    pub fn name_at(&self, entry: u32) -> &'a [u8]
        requires { entry < length self.now }
        ensures { result.now ≡ (get_or self.now entry no_entry).name }
    {
        front_of(self.bytes, &self.entries[entry as usize]).name
    }

    /// The label of the entry of this number, from 0. Takes no memory.
    pub fn label_at(&self, entry: u32) -> LabelRef<'a>
        requires { entry < length self.now }
        ensures { result ≡ (get_or self.now entry no_entry).bits }
    {
        let key = &self.entries[entry as usize];
        label_of(front_of(self.bytes, key).label, key.padding())
    }
}
