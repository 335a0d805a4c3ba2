// Names and their numbers.
ghost use Rattle.std.specs.Prelude.{◌≡◌, ◌<◌, ◌≤◌, ◌++◌, ◌∷◌, [], List, ℕ, Option, Some, None, false, not, length, take, map, get_or, position, IfOk, OnOk, OnErr, IfSome, bytes_eq};
ghost use Rattle.std.specs.Bool.{OnTrue, OnFalse};
ghost use Rattle.wf_model.specs.Faults.{is_one_of, some_twice};

use crate::hashed::HashedName;
use crate::held_name::{HeldKey, HeldName};
use crate::keyed::KeyedHash;
use crate::keys::{find_key, has, put};
use crate::recent::{find_at, find_recent};
use crate::together::{TOGETHER, put_together};
use indexmap::IndexSet;
use std::alloc::{AllocError, Global};
use std::marker::Model;
use wf_model::Name;

/// Names, numbered from 0 in the order in which they were added. Each stands once, and is found by hashing. A table of names of their own is a `Names`; `Names<K>` holds what `K` is of them.
#[derive(Drop)]
pub struct Names<K: HeldName = Name> {
    room: K::Room,
    keyed: KeyedHash,
    keys: IndexSet<HeldKey<K>>,
}

impl<K: HeldName> Model for Names<K> {
    ghost use Rattle.std.specs.Prelude.{ℕ, List, map};
    ghost use Rattle.wf_names.specs.Hashed.{AreHashed};

    ghost Value = { List (List ℕ) };

    ghost view = { λ t. map (λ k. K.name k.held) t.keys.keys };

    ghost invariant = { λ t. AreHashed t.keyed (λ k. k.hash) (λ k. K.name k.held) t.keys.keys };
}

impl Names<Name> {
    /// No names, in a table with the key 0. Takes no memory.
    pub fn new(alloc: Global) -> Names
        ensures { result ≡ [] }
    {
        Names::with_key(alloc, 0)
    }

    /// No names, in a table with this key. Takes no memory.
    pub fn with_key(alloc: Global, key: u64) -> Names
        ensures { result ≡ [] }
    {
        Names::with_room(alloc, key, alloc)
    }
}

impl<K: HeldName> Names<K> {
    /// No names, in a table with this key, and a room for those to come. Takes no memory.
    pub fn with_room(alloc: Global, key: u64, room: K::Room) -> Names<K>
        ensures { result ≡ [] }
    {
        Names {
            room,
            keyed: KeyedHash::new(key),
            keys: IndexSet::new(alloc),
        }
    }

    /// How many names there are.
    pub fn count(&self) -> usize
        ensures { result ≡ length self.now }
    {
        self.keys.len()
    }

    /// The number of a name.
    ///
    /// Cost: the last few names are compared with it; where it is none of these, one look-up by hashing.
    pub fn find(&self, name: &[u8]) -> Option<usize>
        ensures place { result ≡ position (bytes_eq name.now) self.now }
        ensures within { IfSome result (λ i. i < length self.now) }
    {
        if let Some(i) = find_recent(&self.keyed, &self.keys, name) {
            return Some(i);
        }
        let name = HashedName::new(&self.keyed, name);
        find_key(&self.keyed, &self.keys, name)
    }

    /// The number of a name, which may be `near`.
    ///
    /// Cost: the name of this number is compared with it; where it is another, one look-up by hashing.
    pub fn find_near(&self, near: usize, name: &[u8]) -> Option<usize>
        ensures place { result ≡ position (bytes_eq name.now) self.now }
        ensures within { IfSome result (λ i. i < length self.now) }
    {
        if let Some(i) = find_at(&self.keyed, &self.keys, near, name) {
            return Some(i);
        }
        let name = HashedName::new(&self.keyed, name);
        find_key(&self.keyed, &self.keys, name)
    }

    /// Whether a name has a number.
    pub fn holds(&self, name: &[u8]) -> bool
        ensures { result ≡ is_one_of self.now name.now }
    {
        let name = HashedName::new(&self.keyed, name);
        has(&self.keyed, &self.keys, name)
    }

    /// What is held of the name of a number.
    pub fn name_at(&self, i: usize) -> &K
        requires { i < length self.now }
        ensures { K.name result.now ≡ get_or self.now i [] }
    {
        &self.keys[i].held
    }

    /// Adds a new name.
    pub fn add(&mut self, name: &[u8]) -> Result<(), AllocError>
        requires { is_one_of self.old name.now ≡ false }
        ensures added { OnOk result (self.new ≡ self.old ++ name.now ∷ []) }
        ensures err { OnErr result (self.new ≡ self.old) }
    {
        self.insert(name)?;
        Ok(())
    }

    /// Adds a name if it is new, and tells whether it is. After an error the names are as they were.
    ///
    /// Cost: one look-up and one copy of the name, which is hashed once.
    pub fn insert(&mut self, name: &[u8]) -> Result<bool, AllocError>
        ensures is_new { IfOk result (λ is_new. is_new ≡ not (is_one_of self.old name.now)) }
        ensures added { IfOk result (λ is_new. OnTrue is_new (self.new ≡ self.old ++ name.now ∷ [])) }
        ensures taken { IfOk result (λ is_new. OnFalse is_new (self.new ≡ self.old)) }
        ensures err { OnErr result (self.new ≡ self.old) }
    {
        let name = HashedName::new(&self.keyed, name);
        put(&self.room, &self.keyed, &mut self.keys, name)
    }

    /// Adds a few names if all are new and differ, and tells whether they are. If they are not, and after an error, some may have been added.
    fn insert_few(&mut self, names: &[Name]) -> Result<bool, AllocError>
        requires few { length names.now ≤ TOGETHER }
        ensures are_new { IfOk result (λ are_new. are_new ≡ not (some_twice self.old names.now)) }
        ensures added { IfOk result (λ are_new. OnTrue are_new (self.new ≡ self.old ++ names.now)) }
        ensures begins { (more : List (List ℕ)) × (self.new ≡ self.old ++ more) }
    {
        put_together(&self.room, &self.keyed, &mut self.keys, names)
    }

    /// Adds names if all are new and differ, and tells whether they are. If they are not, and after an error, the names are as they were.
    ///
    /// Cost: each name up to the first that is not new is hashed once, looked up once before it is put and once as it is, and copied. A few names at a time are looked up, one right after another, so that they wait for memory at one time.
    pub fn insert_all(&mut self, list: &[Name]) -> Result<bool, AllocError>
        ensures are_new { IfOk result (λ are_new. are_new ≡ not (some_twice self.old list.now)) }
        ensures added { IfOk result (λ are_new. OnTrue are_new (self.new ≡ self.old ++ list.now)) }
        ensures taken { IfOk result (λ are_new. OnFalse are_new (self.new ≡ self.old)) }
        ensures err { OnErr result (self.new ≡ self.old) }
    {
        let before = self.keys.len();
        let mut left = list;
        while !left.is_empty() {
            let (few, rest) = left.split_at(left.len().min(TOGETHER));
            match self.insert_few(few) {
                Ok(true) => {}
                refused => {
                    self.cut(before);
                    return refused;
                }
            }
            left = rest;
        }
        Ok(true)
    }

    /// Takes away the last names.
    pub fn cut(&mut self, len: usize)
        ensures { self.new ≡ take len self.old }
    {
        self.keys.truncate(len);
    }
}
