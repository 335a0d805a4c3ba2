// The keys of a table of names.
ghost use Rattle.std.specs.Prelude.{◌≡◌, ◌<◌, ◌++◌, ◌∷◌, [], not, map, length, position, bytes_eq, IfOk, IfSome, OnErr};
ghost use Rattle.std.specs.Bool.{OnTrue, OnFalse};
ghost use Rattle.wf_model.specs.Faults.{is_one_of};
ghost use Rattle.wf_names.specs.Hashed.{name_hash, AreHashed};

use crate::hashed::HashedName;
use crate::held_name::{HeldKey, HeldName};
use crate::keyed::KeyedHash;
use indexmap::IndexSet;
use std::alloc::AllocError;

/// The number of the key of a name.
#[inline]
pub(crate) fn find_key<K: HeldName>(
    keyed: &KeyedHash,
    keys: &IndexSet<HeldKey<K>>,
    name: HashedName<'_>,
) -> Option<usize>
    requires keys { AreHashed keyed.now (λ k. k.hash) (λ k. K.name k.held) keys.now.keys }
    requires name { name.hash ≡ name_hash keyed.now name.bytes.now }
    ensures place { result ≡ position (bytes_eq name.entry.bytes.now) (map (λ k. K.name k.held) keys.now.keys) }
    ensures within { IfSome result (λ i. i < length keys.now.keys) }
{
    let _keyed = keyed;
    keys.get_index_of(&name)
}

/// Whether a name has a key.
#[inline]
pub(crate) fn has<K: HeldName>(
    keyed: &KeyedHash,
    keys: &IndexSet<HeldKey<K>>,
    name: HashedName<'_>,
) -> bool
    requires keys { AreHashed keyed.now (λ k. k.hash) (λ k. K.name k.held) keys.now.keys }
    requires name { name.hash ≡ name_hash keyed.now name.bytes.now }
    ensures { result ≡ is_one_of (map (λ k. K.name k.held) keys.now.keys) name.entry.bytes.now }
{
    let _keyed = keyed;
    keys.contains(&name)
}

/// Puts the key of a name behind the others, if it is new, and tells whether it is.
#[inline]
pub(crate) fn put<K: HeldName>(
    room: &K::Room,
    keyed: &KeyedHash,
    keys: &mut IndexSet<HeldKey<K>>,
    name: HashedName<'_>,
) -> Result<bool, AllocError>
    requires keys { AreHashed keyed.now (λ k. k.hash) (λ k. K.name k.held) keys.old.keys }
    requires name { name.hash ≡ name_hash keyed.now name.bytes.now }
    ensures is_new { IfOk result (λ is_new. is_new ≡ not (is_one_of (map (λ k. K.name k.held) keys.old.keys) name.entry.bytes.now)) }
    ensures added { IfOk result (λ is_new. OnTrue is_new
        (map (λ k. K.name k.held) keys.new.keys ≡ map (λ k. K.name k.held) keys.old.keys ++ name.entry.bytes.now ∷ [])) }
    ensures taken { IfOk result (λ is_new. OnFalse is_new (keys.new.keys ≡ keys.old.keys)) }
    ensures err { OnErr result (keys.new.keys ≡ keys.old.keys) }
    ensures keys { AreHashed keyed.now (λ k. k.hash) (λ k. K.name k.held) keys.new.keys }
{
    let _keyed = keyed;
    let held = K::hold(room, name.bytes)?;
    let is_new = keys.insert(HeldKey {
        held,
        hash: name.hash,
    })?;
    Ok(is_new)
}
