// The names of entries to come, hashed and looked up before the entries are tried.
ghost use Rattle.std.specs.Prelude.{◌≡◌, ◌≤◌, ◌<◌, ◌+◌, ℕ, List, [], drop};
ghost use Rattle.label_model.specs.Files.{Entry, IsFront};
ghost use Rattle.label_file.specs.Hashed.{AreNamesAhead, IsHashed};

use crate::front::cut_front;
use crate::held::EntryKey;
use crate::key::HashedName;
use crate::table::is_taken;
use indexmap::IndexSet;
use wf_names::KeyedHash;

/// How many names are hashed and looked up at one time.
const AHEAD: usize = 16;

/// The names of the next entries with their hashes, how many of them were taken, and whether all were new when they were looked up.
#[derive(Drop)]
pub(crate) struct Ahead<'a> {
    names: [HashedName<'a>; AHEAD],
    at: usize,
    are_new: bool,
}

/// Hashes the names of the entries that stand at the front of bytes, one behind the other.
fn hash_names<'a>(keyed: &KeyedHash, bytes: &'a [u8], names: &mut [HashedName<'a>; AHEAD])
    ensures { AreNamesAhead keyed.now bytes.now names.new }
{
    let mut left = bytes;
    for i in 0..AHEAD {
        let Some(front) = cut_front(left) else {
            break;
        };
        names[i] = HashedName::new(keyed, front.name);
        left = front.rest;
    }
}

/// Whether no entry has one of the names. What is read of the table for them is at hand when they are put.
fn are_new(entries: &IndexSet<EntryKey>, names: &[HashedName<'_>; AHEAD]) -> bool {
    // Nothing stands between these look-ups, so they wait for memory at one time.
    !names.iter().any(|name| is_taken(entries, name))
}

/// The name at a place, which is that of the next entry.
#[inline(always)]
fn name_at<'a>(
    keyed: &KeyedHash,
    rest: &[u8],
    names: &[HashedName<'a>; AHEAD],
    at: usize,
) -> HashedName<'a>
    requires at { at < 16 }
    requires ahead { AreNamesAhead keyed.now rest.now (drop at names.now) }
    ensures { (e : Entry) (behind : List ℕ) → IsFront e rest.now behind →
        (result.bytes.now ≡ e.name) × IsHashed keyed.now result × AreNamesAhead keyed.now behind (drop (at + 1) names.now) }
{
    let _keyed = keyed;
    let _rest = rest;
    names[at]
}

impl<'a> Ahead<'a> {
    /// All names are taken, so that the next are hashed first.
    pub(crate) fn new() -> Ahead<'a>
        ensures at { result.at ≡ 16 }
        ensures none { drop result.at result.names ≡ [] }
    {
        let none = HashedName {
            bytes: &[],
            hash: 0,
        };
        Ahead {
            names: [none; AHEAD],
            at: AHEAD,
            are_new: false,
        }
    }

    /// Hashes and looks up the names of the next entries, where all before are taken.
    fn fill(&mut self, keyed: &KeyedHash, entries: &IndexSet<EntryKey>, rest: &'a [u8])
        requires at { self.old.at ≤ 16 }
        requires ahead { AreNamesAhead keyed.now rest.now (drop self.old.at self.old.names) }
        ensures at { self.new.at < 16 }
        ensures ahead { AreNamesAhead keyed.now rest.now (drop self.new.at self.new.names) }
    {
        if self.at < AHEAD {
            return;
        }
        hash_names(keyed, rest, &mut self.names);
        self.are_new = are_new(entries, &self.names);
        self.at = 0;
    }

    /// The name of the next entry, with its hash, and whether it is likely new.
    pub(crate) fn next(
        &mut self,
        keyed: &KeyedHash,
        entries: &IndexSet<EntryKey>,
        rest: &'a [u8],
    ) -> (HashedName<'a>, bool)
        requires at { self.old.at ≤ 16 }
        requires ahead { AreNamesAhead keyed.now rest.now (drop self.old.at self.old.names) }
        ensures at { self.new.at ≤ 16 }
        ensures name { (e : Entry) (behind : List ℕ) → IsFront e rest.now behind →
            (result.0.bytes.now ≡ e.name) × IsHashed keyed.now result.0 × AreNamesAhead keyed.now behind (drop self.new.at self.new.names) }
    {
        self.fill(keyed, entries, rest);
        let name = name_at(keyed, rest, &self.names, self.at);
        self.at += 1;
        (name, self.are_new)
    }
}
