// What a table holds of a name.
ghost use Rattle.std.specs.Prelude.{◌≡◌, ◌==◌, ◌&&◌, ℕ, List, IfOk, bytes_eq};
ghost use Rattle.std.specs.Hash as fed;
ghost use Rattle.std.specs.Cmp.Lexicographic.{bytes_decides};
ghost use Rattle.std.specs.Cmp.Rules.{comparing, hashing};
ghost use Rattle.std.proofs.Common.{ap, rules};
ghost use Rattle.std.proofs.lemmas.Bool.{and_parts, eqb-true};

use crate::hashed::HashedName;
use crate::keyed::NameKey;
use bumpalo::Bump;
use indexmap::Equivalent;
use std::alloc::{AllocError, Global};
use std::hash::{Hash, Hasher};
use wf_model::Name;

/// What a table holds of a name: a copy of its bytes, in a room for such copies.
pub trait HeldName: Drop {
    /// Where the copies lie.
    type Room: Drop;

    /// The name.
    ghost name: { Self → List ℕ };

    /// Copies a name. Fails only for want of memory.
    fn hold(room: &Self::Room, bytes: &[u8]) -> Result<Self, AllocError>
        ensures { IfOk result (λ held. name held ≡ bytes.now) };

    /// The bytes of the name.
    fn bytes(&self) -> &[u8]
        ensures { result.now ≡ name self.now };
}

/// A name of its own. One of at most 22 bytes takes no memory but its place in the table.
impl HeldName for Name {
    type Room = Global;

    ghost name = { λ held. held };

    fn hold(room: &Global, bytes: &[u8]) -> Result<Name, AllocError> {
        Name::copied(*room, bytes)
    }

    fn bytes(&self) -> &[u8] {
        Name::bytes(self)
    }
}

/// A name in an arena.
impl<'a> HeldName for NameKey<'a> {
    type Room = &'a Bump;

    ghost name = { λ held. held.bytes.now };

    fn hold(room: &&'a Bump, bytes: &[u8]) -> Result<NameKey<'a>, AllocError> {
        let arena: &'a Bump = *room;
        let bytes: &'a [u8] = arena.try_alloc_slice_copy(bytes)?;
        Ok(NameKey { bytes })
    }

    fn bytes(&self) -> &[u8] {
        self.bytes
    }
}

/// What is held of a name, and 32 bits of its hash, as a key of a table. It is looked up by a `HashedName`.
#[derive(Drop)]
pub(crate) struct HeldKey<K> {
    pub(crate) held: K,
    pub(crate) hash: u32,
}

impl<K: HeldName> PartialEq for HeldKey<K> {
    ghost eq = { λ a b. (a.hash == b.hash) && bytes_eq (K.name a.held) (K.name b.held) };

    ghost laws = { Prim.search (comparing, rules) };

    fn eq(&self, other: &HeldKey<K>) -> bool {
        self.hash == other.hash && self.held.bytes() == other.held.bytes()
    }
}

impl<K: HeldName> Eq for HeldKey<K> {
    ghost laws = { Prim.search (comparing, rules) };
}

impl<K: HeldName> Hash for HeldKey<K> {
    ghost hash_input = { λ a. fed.u32 a.hash };

    ghost respects_eq = { Prim.search (hashing, rules) };

    fn hash<H: Hasher>(&self, state: &mut H) {
        state.write_u32(self.hash);
    }
}

impl<'a, K: HeldName> Equivalent<HeldKey<K>> for &HashedName<'a> {
    ghost equivalent = { λ q k. (q.now.hash == k.hash) && bytes_eq q.now.bytes.now (K.name k.held) };

    ghost respects_hash = { λ q k h. ap fed.u32 (eqb-true q.now.hash k.hash (and_parts _ _ h).0) };

    ghost respects_eq = { λ q x y h. λ i. (eqb-true q.now.hash x.hash (and_parts _ _ h).0 i == y.hash) &&
        bytes_eq ((bytes_decides q.now.bytes.now (K.name x.held)).0 (and_parts _ _ h).1 i) (K.name y.held) };

    fn equivalent(&self, key: &HeldKey<K>) -> bool {
        self.hash == key.hash && self.bytes == key.held.bytes()
    }
}
