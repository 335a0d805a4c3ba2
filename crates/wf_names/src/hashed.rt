// A name with its hash, by which it is looked up.
ghost use Rattle.std.specs.Prelude.{◌≡◌, ◌==◌, ◌&&◌, bytes_eq};
ghost use Rattle.std.specs.Hash as fed;
ghost use Rattle.std.specs.Cmp.Rules.{comparing, hashing};
ghost use Rattle.std.proofs.Common.{rules};
ghost use Rattle.wf_names.specs.Hashed.{name_hash};

use crate::keyed::{KeyedHash, NameKey};
use std::hash::{BuildHasher, Hash, Hasher};

/// A name and 32 bits of its hash with the key of a table. The hash is made once, and before the table is looked at: so the look-ups of several names wait for memory at one time.
#[derive(Clone, Copy)]
pub(crate) struct HashedName<'a> {
    pub(crate) bytes: &'a [u8],
    pub(crate) hash: u32,
}

impl<'a> HashedName<'a> {
    /// The name of these bytes with its hash.
    pub(crate) fn new(keyed: &KeyedHash, bytes: &'a [u8]) -> HashedName<'a>
        ensures bytes { result.bytes.now ≡ bytes.now }
        ensures hash { result.hash ≡ name_hash keyed.now bytes.now }
    {
        let hash = (keyed.hash_one(NameKey { bytes }) % (1 << 32)) as u32;
        HashedName { bytes, hash }
    }
}

impl<'a> PartialEq for HashedName<'a> {
    ghost eq = { λ a b. (a.hash == b.hash) && bytes_eq a.bytes.now b.bytes.now };

    ghost laws = { Prim.search (comparing, rules) };

    fn eq(&self, other: &HashedName<'a>) -> bool {
        self.hash == other.hash && self.bytes == other.bytes
    }
}

impl<'a> Eq for HashedName<'a> {
    ghost laws = { Prim.search (comparing, rules) };
}

impl<'a> Hash for HashedName<'a> {
    ghost hash_input = { λ a. fed.u32 a.hash };

    ghost respects_eq = { Prim.search (hashing, rules) };

    fn hash<H: Hasher>(&self, state: &mut H) {
        state.write_u32(self.hash);
    }
}
