// What reports are about, and the numbers of these subjects.
ghost use Rattle.std.specs.Prelude.{◌≡◌, ◌<◌, ◌++◌, ◌∷◌, [], None, length, position, OnOk, OnErr, IfSome, bytes_eq};
ghost use Rattle.std.specs.Option.{option_eq, option_map};
ghost use Rattle.std.specs.List.{IsDistinct};

use indexmap::IndexSet;
use std::alloc::{AllocError, Global};
use std::marker::Model;
use wf_names::{KeyedHash, NameKey};

/// Subjects of reports, numbered from 0 in the order in which they were added: the name of an instance, or None for the start. Each stands once, and is found by hashing.
#[derive(Drop)]
pub(crate) struct Subjects<'a> {
    numbers: IndexSet<Option<NameKey<'a>>, KeyedHash>,
}

impl<'a> Model for Subjects<'a> {
    ghost use Rattle.std.specs.Prelude.{ℕ, List, Option, map, bytes_eq};
    ghost use Rattle.std.specs.Option.{option_eq, option_map};
    ghost use Rattle.std.specs.List.{IsDistinct};

    ghost Value = { List (Option (List ℕ)) };

    ghost view = { λ t. map (option_map (λ k. k.bytes.now)) t.numbers.keys };

    ghost invariant = { λ t. IsDistinct (option_eq (λ a b. bytes_eq a.bytes.now b.bytes.now)) t.numbers.keys };
}

impl<'a> Subjects<'a> {
    /// No subjects, in a table with this key. Takes no memory.
    pub(crate) fn with_key(alloc: Global, key: u64) -> Subjects<'a>
        ensures { result ≡ [] }
    {
        Subjects {
            numbers: IndexSet::with_hasher(alloc, KeyedHash::new(key)),
        }
    }

    /// The number of a subject.
    pub(crate) fn find(&self, name: Option<&[u8]>) -> Option<usize>
        ensures place { result ≡ position (option_eq bytes_eq (option_map (λ n. n.now) name.entry)) self.now }
        ensures within { IfSome result (λ i. i < length self.now) }
        ensures once { IsDistinct (option_eq bytes_eq) self.now }
    {
        let key = key_of(name);
        self.numbers.get_index_of(&key)
    }

    /// Adds a new subject.
    pub(crate) fn add(&mut self, name: Option<&'a [u8]>) -> Result<(), AllocError>
        requires { position (option_eq bytes_eq (option_map (λ n. n.now) name)) self.old ≡ None }
        ensures added { OnOk result (self.new ≡ self.old ++ option_map (λ n. n.now) name.entry ∷ []) }
        ensures err { OnErr result (self.new ≡ self.old) }
    {
        self.numbers.insert(key_of(name))?;
        Ok(())
    }
}

fn key_of(name: Option<&[u8]>) -> Option<NameKey>
    ensures { option_map (λ k. k.bytes.now) result ≡ option_map (λ n. n.now) name.entry }
{
    match name {
        Some(bytes) => Some(NameKey { bytes }),
        None => None,
    }
}
