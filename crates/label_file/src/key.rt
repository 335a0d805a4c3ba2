// A name with its hash, by which an entry is looked up.
ghost use Rattle.std.specs.Prelude.{◌≡◌};
ghost use Rattle.label_file.specs.Hashed.{name_hash};

use std::hash::BuildHasher;
use wf_names::{KeyedHash, NameKey};

/// A name and 31 bits of its hash with the key of a table. The hash is made once, and before the table is looked at: so two look-ups wait for memory at one time.
#[derive(Clone, Copy)]
pub struct HashedName<'a> {
    pub bytes: &'a [u8],
    pub hash: u32,
}

impl<'a> HashedName<'a> {
    /// The name of these bytes with its hash.
    pub fn new(keyed: &KeyedHash, bytes: &'a [u8]) -> HashedName<'a>
        ensures bytes { result.bytes.now ≡ bytes.now }
        ensures hash { result.hash ≡ name_hash keyed.now bytes.now }
    {
        let hash = (keyed.hash_one(NameKey { bytes }) % (1 << 31)) as u32;
        HashedName { bytes, hash }
    }
}
