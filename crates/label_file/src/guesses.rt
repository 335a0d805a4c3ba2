// Entries that are guessed before their names are asked for.
use crate::held::EntryKey;
use crate::key::HashedName;
use crate::store::Store;
use crate::table::number_of;
use indexmap::IndexSet;
use wf_names::KeyedHash;

/// For how many names the entries are guessed at one time.
pub const GUESSES: usize = 32;

/// Numbers of the entries that likely have the names that are asked for next. Nothing is promised of them: a name is compared with that of its entry.
#[derive(Drop)]
pub struct Guesses {
    numbers: [u32; GUESSES],
    next: usize,
    end: usize,
}

/// Hashes names, so many.
fn hash_all(keyed: &KeyedHash, names: &[&[u8]; GUESSES], count: usize) -> [u32; GUESSES] {
    let mut hashes = [0; GUESSES];
    for i in 0..count.min(GUESSES) {
        hashes[i] = HashedName::new(keyed, names[i]).hash;
    }
    hashes
}

/// The numbers of the entries that are found first by hashes, so many.
fn find_all(
    entries: &IndexSet<EntryKey>,
    hashes: &[u32; GUESSES],
    count: usize,
    numbers: &mut [u32; GUESSES],
) {
    // Nothing stands between these look-ups, so they wait for memory at one time.
    for i in 0..count.min(GUESSES) {
        numbers[i] = number_of(entries, hashes[i]);
    }
}

/// Whether the name of the entry of a number has so many bytes.
fn has_length(bytes: &[u8], entries: &IndexSet<EntryKey>, number: u32, length: usize) -> bool {
    let Some(key) = entries.get_index(number as usize) else {
        return false;
    };
    let Some(first) = bytes.get(key.place() as usize) else {
        return false;
    };
    *first as usize == length
}

/// Drops the numbers of entries whose names are shorter or longer than those that are asked for. The other entries are read then, and at hand.
fn try_all(
    bytes: &[u8],
    entries: &IndexSet<EntryKey>,
    names: &[&[u8]; GUESSES],
    count: usize,
    numbers: &mut [u32; GUESSES],
) {
    for i in 0..count.min(GUESSES) {
        if !has_length(bytes, entries, numbers[i], names[i].len()) {
            numbers[i] = u32::MAX;
        }
    }
}

/// Guesses the entries of names, so many.
pub(crate) fn guess_all(
    keyed: &KeyedHash,
    bytes: &[u8],
    entries: &IndexSet<EntryKey>,
    names: &[&[u8]; GUESSES],
    count: usize,
    numbers: &mut [u32; GUESSES],
) {
    let hashes = hash_all(keyed, names, count);
    find_all(entries, &hashes, count, numbers);
    try_all(bytes, entries, names, count, numbers);
}

impl Guesses {
    /// No entry is guessed.
    pub fn new() -> Guesses {
        Guesses {
            numbers: [0; GUESSES],
            next: 0,
            end: 0,
        }
    }

    /// Whether all that were guessed are taken.
    pub fn are_taken(&self) -> bool {
        self.next >= self.end
    }

    /// Guesses the entries of names, so many, in the order in which they are asked for next.
    ///
    /// Cost: that of a look-up by hashing for each name; all wait for memory at one time. Takes no memory.
    pub fn make(&mut self, store: &Store<'_>, names: &[&[u8]; GUESSES], count: usize) {
        store.guess(names, count, &mut self.numbers);
        self.next = 0;
        self.end = count;
    }

    /// The number of the entry that likely has the next name.
    pub(crate) fn take(&mut self) -> u32 {
        if self.next >= GUESSES {
            return u32::MAX;
        }
        let number = self.numbers[self.next];
        self.next += 1;
        number
    }
}
