// The names that were added last.
ghost use Rattle.std.specs.Prelude.{◌≡◌, ◌<◌, Some, map, length, position, bytes_eq, IfSome};
ghost use Rattle.wf_names.specs.Hashed.{AreHashed};

use crate::held_name::{HeldKey, HeldName};
use crate::keyed::KeyedHash;
use indexmap::IndexSet;

/// How many of the last names are compared with one that is looked up.
const RECENT: usize = 4;

/// Whether a name is the same as one that is held. Names that came one after the other differ most often in their last byte.
fn is_same(name: &[u8], held: &[u8]) -> bool
    ensures { result ≡ bytes_eq name.now held.now }
{
    let count = name.len();
    if held.len() != count {
        return false;
    }
    if 0 < count && name[count - 1] != held[count - 1] {
        return false;
    }
    name == held
}

/// The number of a key, where it is that of a name; no name is hashed for it.
pub(crate) fn find_at<K: HeldName>(
    keyed: &KeyedHash,
    keys: &IndexSet<HeldKey<K>>,
    i: usize,
    name: &[u8],
) -> Option<usize>
    requires keys { AreHashed keyed.now (λ k. k.hash) (λ k. K.name k.held) keys.now.keys }
    ensures place { IfSome result (λ i. position (bytes_eq name.now) (map (λ k. K.name k.held) keys.now.keys) ≡ Some i) }
    ensures within { IfSome result (λ i. i < length keys.now.keys) }
{
    let _keyed = keyed;
    let all = keys.as_slice();
    if i < all.len() && is_same(name, all[i].held.bytes()) {
        return Some(i);
    }
    None
}

/// The number of the key of a name, where it is one of the last few. What refers to a name comes often right behind what gave it.
pub(crate) fn find_recent<K: HeldName>(
    keyed: &KeyedHash,
    keys: &IndexSet<HeldKey<K>>,
    name: &[u8],
) -> Option<usize>
    requires keys { AreHashed keyed.now (λ k. k.hash) (λ k. K.name k.held) keys.now.keys }
    ensures place { IfSome result (λ i. position (bytes_eq name.now) (map (λ k. K.name k.held) keys.now.keys) ≡ Some i) }
    ensures within { IfSome result (λ i. i < length keys.now.keys) }
{
    for i in keys.len().saturating_sub(RECENT)..keys.len() {
        let found = find_at(keyed, keys, i, name);
        if found.is_some() {
            return found;
        }
    }
    None
}
