// Prefixes of labels.

/// The bits with which each label begins that an instance may come to make: the first `length` bits of `bytes`, behind which only fewer than eight zero bits follow, up to the last chain number, and then this number. There is a number exactly where the instance's module is on a cycle. For an instance of an atomic module there are no bits and no number.
#[derive(Clone, Copy, Drop)]
pub struct PrefixRef<'a> {
    pub bytes: &'a [u8],
    pub length: u32,
    pub chain: Option<u32>,
}
