// Hashing with a key, and a borrowed name as a key of a table.
ghost use Rattle.std.specs.Prelude.{◌≡◌, ◌∷◌, [], fold, bytes_eq};
ghost use Rattle.std.specs.Hash as fed;
ghost use Rattle.std.specs.Hash.DefaultHasher as sip;
ghost use Rattle.std.specs.Cmp.Rules.{comparing, hashing};
ghost use Rattle.std.proofs.Common.{rules};
ghost use Rattle.wf_names.specs.Keyed.{first_hasher};

use std::hash::{BuildHasher, DefaultHasher, Hash, Hasher};

/// Makes the hashers of a table. Each begins with the key of the table.
///
/// Who does not know the key cannot find names that meet in one place of the table. The key 0 is known to all.
#[derive(Clone, Copy)]
pub struct KeyedHash {
    first: DefaultHasher,
}

impl KeyedHash {
    /// Hashers that begin with this key.
    pub fn new(key: u64) -> KeyedHash
        ensures { first_hasher result ≡ fold sip.write sip.initial (fed.u64 key) }
    {
        let mut first = DefaultHasher::new();
        first.write_u64(key);
        KeyedHash { first }
    }
}

impl BuildHasher for KeyedHash {
    type Hasher = DefaultHasher;

    ghost build_hasher = { first_hasher };

    fn build_hasher(&self) -> DefaultHasher {
        self.first
    }
}

/// A name that is borrowed, as a key of a table. Its bytes are hashed by one call.
#[derive(Clone, Copy)]
pub struct NameKey<'a> {
    pub bytes: &'a [u8],
}

impl<'a> PartialEq for NameKey<'a> {
    ghost eq = { λ a b. bytes_eq a.bytes.now b.bytes.now };

    ghost laws = { Prim.search (comparing, rules) };

    fn eq(&self, other: &NameKey<'a>) -> bool {
        self.bytes == other.bytes
    }
}

impl<'a> Eq for NameKey<'a> {
    ghost laws = { Prim.search (comparing, rules) };
}

impl<'a> Hash for NameKey<'a> {
    ghost hash_input = { λ a. a.bytes.now ∷ [] };

    ghost respects_eq = { Prim.search (hashing, rules) };

    fn hash<H: Hasher>(&self, state: &mut H) {
        state.write(self.bytes);
    }
}
