// The label file of a run of the line grammar: the root `r` with its input `a` and its output `b`, and the item `i1.y` of its one edge.
ghost use Rattle.std.specs.Prelude.{◌≡◌, ◌^◌, ◌≤◌, length, IfOk};

use label_file::Store;
use std::alloc::{AllocError, Global};
use std::test::Fail;
use wf_samples::{LINE, sample};

/// The digests of a grammar and of an earlier version of it: the file has that of the version.
const DIGESTS: [[u8; 32]; 2] = [[0xcd; 32], [0xab; 32]];

/// The bytes of the label file.
fn file(alloc: Global) -> Result<Vec<u8>, AllocError>
    ensures { IfOk result (λ v. length v.items ≡ 58) }
{
    let mut bytes = Vec::from_slice(alloc, b"WFL1")?;
    bytes.extend_from_slice(&DIGESTS[1])?;
    bytes.extend_from_slice(b"\x03r.a\x00\x01\x20")?;
    bytes.extend_from_slice(b"\x03r.b\x00\x01\x60")?;
    bytes.extend_from_slice(b"\x04i1.y\x00\x01\xb0")?;
    Ok(bytes)
}

/// Whether the entry of this number has this name, by which it is found, and this label of one byte.
fn is_entry(store: &Store, number: u32, name: &[u8], label: u8) -> bool {
    if number >= store.length() {
        return false;
    }
    let Some(found) = store.get(name) else {
        return false;
    };
    let bytes = [label];
    if store.name_at(number) != name {
        return false;
    }
    store.label_at(number).bytes() == bytes.as_slice() && found.bytes() == bytes.as_slice()
}

/// Whether these are the entries that the label file has.
fn are_entries(store: &Store) -> bool {
    store.length() == 3
        && is_entry(store, 0, b"r.a", 0x20)
        && is_entry(store, 1, b"r.b", 0x60)
        && is_entry(store, 2, b"i1.y", 0xb0)
        && store.get(b"r.c").is_none()
}

/// Whether a store of bytes has the entries that the label file has.
fn is_opened(alloc: Global, bytes: &[u8]) -> Result<bool, Fail>
    requires { length bytes.now ≤ 2 ^ 30 }
{
    let s = sample(alloc, LINE)?;
    match Store::open(alloc, s.linear(), &DIGESTS, bytes) {
        Ok(store) => Ok(are_entries(&store)),
        Err(_) => Ok(false),
    }
}

#[test]
fn entries_are_found_by_number_and_by_name(rt: HostRuntime) -> Result<(), Fail> {
    let bytes = file(rt.alloc())?;
    assert!(rt; is_opened(rt.alloc(), &bytes)?);
    Ok(())
}
