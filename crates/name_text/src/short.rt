// Names of 1 to 64 letters, digits, `_` and `-`.
ghost use Rattle.std.specs.Prelude.{◌≡◌, ◌++◌, ◌&&◌, ◌==◌, ◌<◌, true, length, nat_le, nat_lt};
ghost use Rattle.std.specs.Int.{bit_at};
ghost use Rattle.std.specs.List.{list_all};
ghost use Rattle.wf_model.specs.Faults.{is_name_byte, is_short_name};
ghost use Rattle.name_text.specs.Fronts.{BeginsOtherwise};

use wf_model::Name;

/// The bytes of names below 64, as the binary digits of a word: `-` and the digits.
const LOW: u64 = 0x03FF_2000_0000_0000;

/// Those from 64 to 127, less 64: letters and `_`.
const HIGH: u64 = 0x07FF_FFFE_87FF_FFFE;

/// Whether the binary digit of a word at a place is 1.
#[inline(always)]
fn has_digit(word: u64, place: u8) -> bool
    requires { place < 64 }
    ensures { result ≡ (bit_at word place == 1) }
{
    (word >> place) & 1 == 1
}

/// Whether names have this byte. It is looked up in a word, since a test for each range takes three times as long.
#[inline(always)]
fn is_of_name(b: u8) -> bool
    ensures { result ≡ is_name_byte b }
{
    if b < 64 {
        return has_digit(LOW, b);
    }
    if b < 128 {
        return has_digit(HIGH, b - 64);
    }
    false
}

/// The bytes of names at the front, and the bytes behind them.
#[inline(always)]
pub(crate) fn names_first(bytes: &[u8]) -> (&[u8], &[u8])
    ensures whole { bytes.now ≡ result.0.now ++ result.1.now }
    ensures names { list_all is_name_byte result.0.now ≡ true }
    ensures next { BeginsOtherwise result.1.now }
{
    let mut n = 0;
    while n < bytes.len() && is_of_name(bytes[n]) {
        n += 1;
    }
    bytes.split_at(n)
}

/// Whether there are 1 to 64 bytes.
#[inline(always)]
pub(crate) fn is_sized(name: &[u8]) -> bool
    ensures { result ≡ (nat_lt 0 (length name.now) && nat_le (length name.now) 64) }
{
    !name.is_empty() && name.len() <= 64
}

fn are_of_names(bytes: &[u8]) -> bool
    ensures { result ≡ list_all is_name_byte bytes.now }
{
    let (_, behind) = names_first(bytes);
    behind.is_empty()
}

/// Whether bytes are a name: 1 to 64 letters, digits, `_` or `-`.
///
/// Cost: linear in the bytes, of which 64 at most are looked at. Takes no memory.
pub fn is_short(name: &[u8]) -> bool
    ensures { result ≡ is_short_name name.now }
{
    is_sized(name) && are_of_names(name)
}

/// Whether all are names.
///
/// Cost: linear in the bytes. Takes no memory.
pub fn are_short(names: &[Name]) -> bool
    ensures { result ≡ list_all is_short_name names.now }
{
    names.iter().all(|name| is_short(name.bytes()))
}
