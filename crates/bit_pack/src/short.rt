// At most 64 bits, held in a word and in its eight bytes. The first of them is the most significant bit of the word, and zero bits follow the last.
ghost use Rattle.std.specs.Prelude.{◌≡◌, ◌+◌, ◌-◌, ◌*◌, ◌/◌, ◌^◌, ◌<◌, ◌≤◌, ℕ, Bool, List, ◌++◌, length, take, OnOk};
ghost use Rattle.bit_pack.specs.Bits.{low_bits};
ghost use Rattle.bit_pack.specs.Reading.{IsWordOf};
ghost use Rattle.bit_pack.specs.Written.{first_bits, held_bytes, IsFilled};

use crate::word::first_word;
use std::alloc::AllocError;

/// The first bits of a word, so many, and then zero bits.
#[inline(always)]
pub fn first_of(word: u64, count: u32) -> u64
    requires { count < 64 }
    ensures { result ≡ word / 2 ^ (64 - count) * 2 ^ (64 - count) }
{
    word - (word & (u64::MAX >> count))
}

/// The word of the first bits of another, so many, and of digits behind them.
#[inline(always)]
pub fn with_digits(word: u64, begun: u32, digits: u64, count: u32) -> u64
    requires some { 0 < count }
    requires short { begun + count ≤ 64 }
    requires fits { digits < 2 ^ count }
    ensures { (bits : List Bool) → IsWordOf bits word → begun ≤ length bits → IsWordOf (take begun bits ++ low_bits count digits) result }
{
    first_of(word, begun) + (digits << (64 - begun - count))
}

/// The bytes that bits fill, so many: the first of eight where they are at most 64, and else others.
#[inline(always)]
pub fn held<'b>(eight: &'b [u8], bytes: &'b [u8], count: u32) -> &'b [u8]
    requires { length eight.now ≡ 8 }
    ensures { result.now ≡ held_bytes eight.now bytes.now count }
{
    if count <= 64 {
        return &eight[..(count as usize + 7) / 8];
    }
    bytes
}

/// Brings bits that are held by eight bytes into other bytes, where they are. The only error is that memory is refused.
pub fn spill(bytes: &mut Vec<u8>, eight: &[u8], count: u32) -> Result<(), AllocError>
    requires { length eight.now ≡ 8 }
    ensures ok { OnOk result (bytes.new.items ≡ held_bytes eight.now bytes.old.items count) }
    ensures same { held_bytes eight.now bytes.new.items count ≡ held_bytes eight.now bytes.old.items count }
{
    if count > 64 {
        return Ok(());
    }
    bytes.clear();
    bytes.extend_from_slice(&eight[..(count as usize + 7) / 8])
}

/// The word of the bits that fill bytes, so many. More than 64 bits have no word.
pub fn word_of(bytes: &[u8], count: u32) -> u64
    requires { IsFilled bytes.now count }
    ensures { count ≤ 64 → IsWordOf (first_bits bytes.now count) result }
{
    if count > 64 {
        return 0;
    }
    first_word(bytes).0
}

/// Takes over bytes that more than 64 bits fill, in place of what was there. The only error is that memory is refused.
pub fn take_over(bytes: &mut Vec<u8>, from: &[u8], count: u32) -> Result<(), AllocError>
    ensures { OnOk result (64 < count → bytes.new.items ≡ from.now) }
{
    if count <= 64 {
        return Ok(());
    }
    bytes.clear();
    bytes.extend_from_slice(from)
}
