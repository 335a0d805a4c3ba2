// Names that lie one behind the other in one text.
ghost use Rattle.std.specs.Prelude.{◌≡◌, ◌<◌, ◌^◌, ◌++◌, length, flat_map, IfOk, OnOk, bytes_eq};
ghost use Rattle.std.specs.List.{AllByRecursion};
ghost use Rattle.std.specs.Cmp.Lexicographic.{pointwise};
ghost use Rattle.wf_inbox.specs.Packed.{length_bytes, name_bytes, read_four, read_length, first_name, behind_first, names_in};

use std::alloc::{AllocError, Global};
use wf_model::Name;

/// Writes a length.
///
/// The only error but want of memory is a length past 4,294,967,295.
fn push_length(into: &mut Vec<u8>, length: usize) -> Result<(), AllocError>
    ensures written { OnOk result (into.new.items ≡ into.old.items ++ length_bytes length) }
    ensures short { OnOk result (length < 2 ^ 32) }
{
    if length < 255 {
        into.push(length as u8)?;
        return Ok(());
    }
    let Ok(long) = u32::try_from(length) else {
        return Err(AllocError);
    };
    into.push(255)?;
    into.extend_from_slice(&long.to_le_bytes())
}

/// Writes a name behind others. After an error a part of it may be there.
pub(crate) fn push_name(into: &mut Vec<u8>, name: &[u8]) -> Result<(), AllocError>
    ensures written { OnOk result (into.new.items ≡ into.old.items ++ name_bytes name.now) }
    ensures short { OnOk result (length name.now < 2 ^ 32) }
{
    push_length(into, name.len())?;
    into.extend_from_slice(name)
}

/// Writes names behind others. After an error some of them may be there.
pub(crate) fn push_names(into: &mut Vec<u8>, names: &[Name]) -> Result<(), AllocError>
    ensures written { OnOk result (into.new.items ≡ into.old.items ++ flat_map name_bytes names.now) }
    ensures short { OnOk result (AllByRecursion (λ n. length n < 2 ^ 32) names.now) }
{
    let mut left = names;
    while let [first, rest @ ..] = left {
        push_name(into, first.bytes())?;
        left = rest;
    }
    Ok(())
}

/// A length that is written as four bytes, and the text behind it.
fn split_four(text: &[u8]) -> (usize, &[u8])
    ensures size { result.0 ≡ (read_four text.now).size }
    ensures rest { result.1.now ≡ (read_four text.now).rest }
{
    let [a, b, c, d, rest @ ..] = text else {
        return (0, &[]);
    };
    (u32::from_le_bytes([*a, *b, *c, *d]) as usize, rest)
}

/// The length at the beginning of a text, and the text behind it.
fn split_length(text: &[u8]) -> (usize, &[u8])
    ensures size { result.0 ≡ (read_length text.now).size }
    ensures rest { result.1.now ≡ (read_length text.now).rest }
{
    let [size, rest @ ..] = text else {
        return (0, &[]);
    };
    if *size == 255 {
        return split_four(rest);
    }
    (*size as usize, rest)
}

/// The first name of a text, and the text behind it.
pub(crate) fn split_name(text: &[u8]) -> (&[u8], &[u8])
    ensures first { result.0.now ≡ first_name text.now }
    ensures behind { result.1.now ≡ behind_first text.now }
{
    let (size, rest) = split_length(text);
    rest.split_at(size.min(rest.len()))
}

/// The names of a text, made anew.
pub(crate) fn names_of(alloc: Global, text: &[u8]) -> Result<Vec<Name>, AllocError>
    ensures { IfOk result (λ all. all.items ≡ names_in text.now) }
{
    let mut all = Vec::new(alloc);
    let mut left = text;
    while !left.is_empty() {
        let (first, rest) = split_name(left);
        let name = Name::copied(alloc, first)?;
        all.push(name)?;
        left = rest;
    }
    Ok(all)
}

/// Whether the names of a text are these.
pub(crate) fn are_same(text: &[u8], names: &[Name]) -> bool
    ensures { result ≡ pointwise bytes_eq (names_in text.now) names.now }
{
    let mut left = text;
    let mut others = names;
    while !left.is_empty() {
        let [other, more @ ..] = others else {
            return false;
        };
        let (first, rest) = split_name(left);
        if first != other.bytes() {
            return false;
        }
        left = rest;
        others = more;
    }
    others.is_empty()
}
