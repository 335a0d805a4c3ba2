// Bytes that are tried as labels one after another, and alone.

use std::test::Fail;
use wf_accept::Accepted;
use wf_label::{Checker, LabelRef};
use wf_samples::{TWISTING, sample};

/// Whether a checker finds bytes a label of as many bits as they are found alone, or none where they are found none alone.
fn is_same(s: &Accepted, checker: &mut Checker<'_>, bytes: &[u8]) -> bool {
    match (LabelRef::check(s.linear(), bytes), checker.check(bytes)) {
        (Ok(alone), Ok(label)) => alone.length() == label.length(),
        (Err(_), Err(_)) => true,
        _ => false,
    }
}

/// Whether a checker finds bytes of three kinds the same as they are found alone: two bytes of which this is the first, the same two behind a long chain
/// number, and the two with a third.
fn are_same(s: &Accepted, checker: &mut Checker<'_>, first: u8) -> bool {
    for second in 0..=u8::MAX {
        if !is_same(s, checker, &[first, second]) {
            return false;
        }
    }
    for second in 0..=u8::MAX {
        if !is_same(s, checker, &[0xf0, 0x00, 0x0c, 0x35, first, second]) {
            return false;
        }
    }
    for second in 0..=u8::MAX {
        if !is_same(s, checker, &[first, second, first]) {
            return false;
        }
    }
    true
}

#[test]
fn bytes_are_a_label_whatever_was_tried_before(rt: HostRuntime) -> Result<(), Fail> {
    let s = sample(rt.alloc(), TWISTING)?;
    let mut checker = Checker::new(s.linear());
    for first in 0..=u8::MAX {
        assert!(rt; are_same(&s, &mut checker, first), "at {first}");
    }
    Ok(())
}
