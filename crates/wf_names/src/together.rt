// Names that are put into a table together.
ghost use Rattle.std.specs.Prelude.{◌≡◌, ◌≤◌, ◌++◌, List, ℕ, true, not, length, take, map, IfOk};
ghost use Rattle.std.specs.Bool.{OnTrue};
ghost use Rattle.wf_model.specs.Faults.{some_twice};
ghost use Rattle.wf_names.specs.Hashed.{name_hash, AreHashed};

use crate::hashed::HashedName;
use crate::held_name::{HeldKey, HeldName};
use crate::keyed::KeyedHash;
use crate::keys::{has, put};
use indexmap::IndexSet;
use std::alloc::AllocError;
use wf_model::Name;

/// How many names are hashed and looked up at one time.
pub(crate) const TOGETHER: usize = 8;

/// Hashes names.
fn hash_names<'n>(keyed: &KeyedHash, names: &'n [Name], hashed: &mut [HashedName<'n>; TOGETHER])
    requires few { length names.now ≤ TOGETHER }
    ensures names { map (λ n. n.bytes.now) (take (length names.now) hashed.new) ≡ names.now }
    ensures hashed { AreHashed keyed.now (λ n. n.hash) (λ n. n.bytes.now) (take (length names.now) hashed.new) }
{
    for i in 0..names.len() {
        hashed[i] = HashedName::new(keyed, names[i].bytes());
    }
}

/// Whether one of the names has a key. What is read of the table for them is at hand when they are put.
fn has_some<K: HeldName>(
    keyed: &KeyedHash,
    keys: &IndexSet<HeldKey<K>>,
    names: &[HashedName<'_>],
) -> bool
    requires keys { AreHashed keyed.now (λ k. k.hash) (λ k. K.name k.held) keys.now.keys }
    requires names { AreHashed keyed.now (λ n. n.hash) (λ n. n.bytes.now) names.now }
    ensures { result ≡ true → some_twice (map (λ k. K.name k.held) keys.now.keys) (map (λ n. n.bytes.now) names.now) ≡ true }
{
    // Nothing stands between these look-ups, so they wait for memory at one time.
    for name in names {
        if has(keyed, keys, *name) {
            return true;
        }
    }
    false
}

/// Puts the keys of names behind the others, one by one up to the first that is not new, and tells whether all are.
fn put_each<K: HeldName>(
    room: &K::Room,
    keyed: &KeyedHash,
    keys: &mut IndexSet<HeldKey<K>>,
    names: &[HashedName<'_>],
) -> Result<bool, AllocError>
    requires keys { AreHashed keyed.now (λ k. k.hash) (λ k. K.name k.held) keys.old.keys }
    requires names { AreHashed keyed.now (λ n. n.hash) (λ n. n.bytes.now) names.now }
    ensures are_new { IfOk result (λ are_new. are_new ≡ not (some_twice (map (λ k. K.name k.held) keys.old.keys) (map (λ n. n.bytes.now) names.now))) }
    ensures added { IfOk result (λ are_new. OnTrue are_new
        (map (λ k. K.name k.held) keys.new.keys ≡ map (λ k. K.name k.held) keys.old.keys ++ map (λ n. n.bytes.now) names.now)) }
    ensures begins { (more : List (List ℕ)) × (map (λ k. K.name k.held) keys.new.keys ≡ map (λ k. K.name k.held) keys.old.keys ++ more) }
    ensures keys { AreHashed keyed.now (λ k. k.hash) (λ k. K.name k.held) keys.new.keys }
{
    for name in names {
        if !put(room, keyed, keys, *name)? {
            return Ok(false);
        }
    }
    Ok(true)
}

/// Puts the keys of a few names behind the others, if all are new and differ, and tells whether they are. If they are not, and after an error, some may have been put.
///
/// Each name is hashed once. All are looked up before the first is put, and where one has a key already none is put.
pub(crate) fn put_together<K: HeldName>(
    room: &K::Room,
    keyed: &KeyedHash,
    keys: &mut IndexSet<HeldKey<K>>,
    names: &[Name],
) -> Result<bool, AllocError>
    requires few { length names.now ≤ TOGETHER }
    requires keys { AreHashed keyed.now (λ k. k.hash) (λ k. K.name k.held) keys.old.keys }
    ensures are_new { IfOk result (λ are_new. are_new ≡ not (some_twice (map (λ k. K.name k.held) keys.old.keys) names.now)) }
    ensures added { IfOk result (λ are_new. OnTrue are_new
        (map (λ k. K.name k.held) keys.new.keys ≡ map (λ k. K.name k.held) keys.old.keys ++ names.now)) }
    ensures begins { (more : List (List ℕ)) × (map (λ k. K.name k.held) keys.new.keys ≡ map (λ k. K.name k.held) keys.old.keys ++ more) }
    ensures keys { AreHashed keyed.now (λ k. k.hash) (λ k. K.name k.held) keys.new.keys }
{
    let none = HashedName {
        bytes: &[],
        hash: 0,
    };
    let mut hashed = [none; TOGETHER];
    hash_names(keyed, names, &mut hashed);
    let hashed = &hashed[..names.len()];
    if has_some(keyed, keys, hashed) {
        return Ok(false);
    }
    put_each(room, keyed, keys, hashed)
}
