// The keys of the entries of a file, found by the names of the entries.
ghost use Rattle.std.specs.Prelude.{◌≡◌, ◌↔◌, ◌<◌, ◌≤◌, ◌-◌, ◌*◌, ◌+◌, ◌^◌, ◌∷◌, ◌++◌, [], ℕ, List, true, false, length, drop, IsTrue, OnOk, IfOk, IfSome, IfNone};
ghost use Rattle.bit_pack.specs.Written.{first_bits, IsFilled};
ghost use Rattle.wf_model.specs.Lists.{IsIn};
ghost use Rattle.label_model.specs.Files.{Entry, IsFront};
ghost use Rattle.label_file.specs.Stored.{names_held};
ghost use Rattle.label_file.specs.Layout.{entry_at_front};
ghost use Rattle.label_file.specs.Keys.{EntryAt, numbers, held, held_at, held_of, IsPlaced};
ghost use Rattle.label_file.specs.Hashed.{AreKeysIn, HasNone, IsHashed, turned};

use crate::front::{Front, cut_front};
use crate::held::EntryKey;
use crate::key::HashedName;
use indexmap::IndexSet;
use std::alloc::AllocError;
use wf_label::LabelRef;
use wf_names::KeyedHash;

/// How many numbers there are.
const NUMBERS: u32 = 1 << 31;

/// The number so many turns behind a hash.
fn number_at(hash: u32, turn: u32) -> u32
    requires hash { hash < 2 ^ 31 }
    requires turn { turn < 2 ^ 31 }
    ensures number { result ≡ turned hash turn }
    ensures few { result < 2 ^ 31 }
{
    (hash + turn) % NUMBERS
}

/// Whether the first number for a name is that of a key.
pub(crate) fn is_taken(entries: &IndexSet<EntryKey>, name: &HashedName<'_>) -> bool {
    entries.contains(&EntryKey::new(name.hash % NUMBERS, 0, 0))
}

/// The number of the entry whose key has the first number for a hash; a number past all where none has it.
pub(crate) fn number_of(entries: &IndexSet<EntryKey>, hash: u32) -> u32 {
    match entries.get_index_of(&EntryKey::new(hash % NUMBERS, 0, 0)) {
        Some(number) => (number % (1 << 32)) as u32,
        None => u32::MAX,
    }
}

/// The key of a number; None where there is none.
fn key_of(entries: &IndexSet<EntryKey>, number: u32) -> Option<&EntryKey>
    requires { number < 2 ^ 31 }
    ensures some { IfSome result (λ k. IsIn k.now entries.now.keys × (k.now.number ≡ number)) }
    ensures one { IfSome result (λ k. (other : EntryAt) → IsIn other entries.now.keys → other.number ≡ number → other ≡ k.now) }
    ensures none { IfNone result (IsIn number (numbers entries.now.keys) → ⊥) }
{
    // The keys of a set differ.
    let _count = entries.len();
    entries.get(&EntryKey::new(number, 0, 0))
}

/// The entry that stands where a key says.
pub(crate) fn front_of<'a>(bytes: &'a [u8], key: &EntryKey) -> Front<'a>
    requires { (e : Entry) × IsPlaced bytes.now key.now.place key.now.padding e }
    ensures placed { IsPlaced bytes.now key.now.place key.now.padding (entry_at_front result) }
    ensures held { held_at bytes.now key.now ≡ held_of (entry_at_front result) key.now.padding }
{
    cut_front(&bytes[key.place() as usize..]).unwrap()
}

/// The label in these bytes, but for so many zero bits at their end.
pub(crate) fn label_of(bytes: &[u8], padding: u8) -> LabelRef<'_>
    requires few { length bytes.now < 2 ^ 16 }
    requires padded { padding ≤ 8 * length bytes.now }
    requires filled { IsFilled bytes.now (8 * length bytes.now - padding) }
    ensures { result ≡ first_bits bytes.now (8 * length bytes.now - padding) }
{
    LabelRef::new(bytes, 8 * bytes.len() as u32 - padding as u32)
}

/// The label of the entry of this name; None where no entry has it.
///
/// The keys are tried from the hash of the name on. All but the first is rare.
#[inline(always)]
pub(crate) fn find<'a>(
    keyed: &KeyedHash,
    bytes: &'a [u8],
    entries: &IndexSet<EntryKey>,
    name: HashedName<'_>,
) -> Option<LabelRef<'a>>
    requires entries { AreKeysIn keyed.now bytes.now entries.now.keys }
    requires name { IsHashed keyed.now name }
    ensures found { IfSome result (λ l. IsIn (record { name = name.entry.bytes.now; bits = l }) (held bytes.now entries.now.keys)) }
    ensures none { IfNone result (IsIn name.entry.bytes.now (names_held (held bytes.now entries.now.keys)) → ⊥) }
{
    let _keyed = keyed;
    for turn in 0..NUMBERS {
        let Some(key) = key_of(entries, number_at(name.hash, turn)) else {
            return None;
        };
        let front = front_of(bytes, key);
        if front.name == name.bytes {
            return Some(label_of(front.label, key.padding()));
        }
    }
    None
}

/// The label of the entry of a number, counted from 0, if it has this name.
fn label_if_named<'a>(
    keyed: &KeyedHash,
    bytes: &'a [u8],
    entries: &IndexSet<EntryKey>,
    number: u32,
    name: &[u8],
) -> Option<LabelRef<'a>>
    requires entries { AreKeysIn keyed.now bytes.now entries.now.keys }
    ensures { IfSome result (λ l. IsIn (record { name = name.now; bits = l }) (held bytes.now entries.now.keys)) }
{
    let _keyed = keyed;
    let Some(key) = entries.get_index(number as usize) else {
        return None;
    };
    let front = front_of(bytes, key);
    if front.name == name {
        return Some(label_of(front.label, key.padding()));
    }
    None
}

/// The label of the entry of this name; None where no entry has it. It is at hand where the entry of the number has the name, whatever the number is.
#[inline(always)]
pub(crate) fn find_guessed<'a>(
    keyed: &KeyedHash,
    bytes: &'a [u8],
    entries: &IndexSet<EntryKey>,
    number: u32,
    name: &[u8],
) -> Option<LabelRef<'a>>
    requires entries { AreKeysIn keyed.now bytes.now entries.now.keys }
    ensures found { IfSome result (λ l. IsIn (record { name = name.now; bits = l }) (held bytes.now entries.now.keys)) }
    ensures none { IfNone result (IsIn name.now (names_held (held bytes.now entries.now.keys)) → ⊥) }
{
    match label_if_named(keyed, bytes, entries, number, name) {
        Some(label) => Some(label),
        None => find(keyed, bytes, entries, HashedName::new(keyed, name)),
    }
}

/// Whether an entry has this name.
pub(crate) fn holds(
    keyed: &KeyedHash,
    bytes: &[u8],
    entries: &IndexSet<EntryKey>,
    name: HashedName<'_>,
) -> bool
    requires entries { AreKeysIn keyed.now bytes.now entries.now.keys }
    requires name { IsHashed keyed.now name }
    ensures { IsTrue result ↔ IsIn name.entry.bytes.now (names_held (held bytes.now entries.now.keys)) }
{
    find(keyed, bytes, entries, name).is_some()
}

/// Whether the key of a number is that of an entry of this name.
fn is_named(
    keyed: &KeyedHash,
    bytes: &[u8],
    entries: &IndexSet<EntryKey>,
    number: u32,
    name: &[u8],
) -> bool
    requires number { number < 2 ^ 31 }
    requires entries { AreKeysIn keyed.now bytes.now entries.now.keys }
    ensures yes { result ≡ true → IsIn name.now (names_held (held bytes.now entries.now.keys)) }
    ensures no { result ≡ false → HasNone bytes.now entries.now.keys name.now number }
{
    let _keyed = keyed;
    let Some(key) = key_of(entries, number) else {
        return false;
    };
    front_of(bytes, key).name == name
}

/// Adds a key behind the others, if its number is that of none, and tells whether it is. The only error is that memory is refused.
fn put_key(entries: &mut IndexSet<EntryKey>, key: EntryKey) -> Result<bool, AllocError>
    ensures new { IfOk result (λ is_new. is_new ≡ true → (entries.new.keys ≡ entries.old.keys ++ key ∷ []) × (IsIn key.number (numbers entries.old.keys) → ⊥)) }
    ensures taken { IfOk result (λ is_new. is_new ≡ false → (entries.new.keys ≡ entries.old.keys) × IsIn key.number (numbers entries.old.keys)) }
{
    let is_new = entries.insert(key)?;
    Ok(is_new)
}

/// Adds the key of an entry behind the others, if the name of the entry is new, and tells whether it is. The only error is that memory is refused.
///
/// Its number is the first from the hash of the name on that no key has. All but the first is rare.
pub(crate) fn put(
    keyed: &KeyedHash,
    bytes: &[u8],
    entries: &mut IndexSet<EntryKey>,
    name: HashedName<'_>,
    place: u32,
    padding: u8,
) -> Result<bool, AllocError>
    requires entries { AreKeysIn keyed.now bytes.now entries.old.keys }
    requires name { IsHashed keyed.now name }
    requires place { place < 2 ^ 30 }
    requires padding { padding < 8 }
    requires placed { (e : Entry) × IsPlaced bytes.now place padding e × (name.bytes.now ≡ e.name) }
    ensures free { IfOk result (λ is_new. is_new ≡ true → IsIn name.entry.bytes.now (names_held (held bytes.now entries.old.keys)) → ⊥) }
    ensures added { IfOk result (λ is_new. is_new ≡ true → (e : Entry) → IsPlaced bytes.now place padding e →
        held bytes.now entries.new.keys ≡ held bytes.now entries.old.keys ++ held_of e padding ∷ []) }
    ensures taken { IfOk result (λ is_new. is_new ≡ false → IsIn name.entry.bytes.now (names_held (held bytes.now entries.old.keys))) }
    ensures few { OnOk result (length entries.new.keys ≤ length entries.old.keys + 1) }
    ensures entries { OnOk result (AreKeysIn keyed.now bytes.now entries.new.keys) }
{
    for turn in 0..NUMBERS {
        let number = number_at(name.hash, turn);
        if put_key(entries, EntryKey::new(number, place, padding))? {
            return Ok(true);
        }
        if is_named(keyed, bytes, entries, number, name.bytes) {
            return Ok(false);
        }
    }
    Err(AllocError)
}
