// Names, and the two names of an item.
use name_text::{is_short, split_item};
use std::alloc::{AllocError, Global};
use std::test::Fail;

/// The name of an item, and the two names in it; or bytes that are none.
const ITEMS: [(&[u8], Option<(&[u8], &[u8])>); 11] = [
    (b"run-2.tree_b", Some((b"run-2", b"tree_b"))),
    (b"", None),
    (b".", None),
    (b"a", None),
    (b"a.", None),
    (b".b", None),
    (b"a..b", None),
    (b"a.b.c", None),
    (b"a b.c", None),
    (b"a.b c", None),
    (b"a.\xc3\xa9", None),
];

/// How many letters, and whether so many are a name.
const LETTERS: [(usize, bool); 4] = [(0, false), (1, true), (64, true), (65, false)];

/// Whether so many letters are a name.
fn is_name(alloc: Global, count: usize) -> Result<bool, AllocError> {
    let letters = vec![in alloc; b'n'; count]?;
    Ok(is_short(&letters))
}

#[test]
fn names_and_names_of_items_are_told(rt: HostRuntime) -> Result<(), Fail> {
    for (name, parts) in ITEMS {
        assert!(rt; split_item(name) == parts, "at {name:?}");
    }
    for (count, wanted) in LETTERS {
        assert!(rt; is_name(rt.alloc(), count)? == wanted, "at {count}");
    }
    assert!(rt; is_short(b"Z"));
    Ok(())
}
