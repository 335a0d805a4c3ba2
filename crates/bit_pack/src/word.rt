// The next bits of bytes, held in a word of 64 bits. The first of them is its most significant bit.
ghost use Rattle.std.specs.Prelude.{◌≡◌, ◌+◌, ◌*◌, ◌^◌, ◌<◌, ◌≤◌, ◌↔◌, ℕ, Bool, List, ◌∷◌, length, min, drop, IfOk, Err};
ghost use Rattle.bit_pack.specs.Bits.{bits_of, number};
ghost use Rattle.bit_pack.specs.Gamma.{gamma, Begins, BeginsAbove, HasNoCode};
ghost use Rattle.bit_pack.specs.Reading.{IsWord};

use crate::code::code_at;
use crate::fault::BitFault;
use crate::scan::number_at;

/// The number that the bits of at most eight bytes tell. Takes no memory.
#[inline(always)]
pub fn number_of(bytes: &[u8]) -> u64
    requires { length bytes.now ≤ 8 }
    ensures { result ≡ number (bits_of bytes.now) }
{
    let mut number: u64 = 0;
    for byte in bytes {
        number = (number << 8) + *byte as u64;
    }
    number
}

/// The first bits of bytes as a word, and how many they are: 64 at most.
pub fn first_word(bytes: &[u8]) -> (u64, usize)
    ensures word { IsWord (bits_of bytes.now) result.1 result.0 }
    ensures held { result.1 ≡ min 64 (8 * length bytes.now) }
{
    let first = &bytes[..bytes.len().min(8)];
    let held = 8 * first.len();
    if held == 0 {
        return (0, 0);
    }
    (number_of(first) << (64 - held), held)
}

/// The bits from a place on as a word, and how many they are: 64 at most.
fn word_at(bytes: &[u8], at: usize) -> (u64, usize)
    requires few { length bytes.now < 2 ^ 60 }
    requires inside { at ≤ 8 * length bytes.now }
    ensures word { IsWord (drop at (bits_of bytes.now)) result.1 result.0 }
    ensures some { result.1 ≡ 0 → at ≡ 8 * length bytes.now }
{
    let held = (8 * bytes.len() - at).min(64);
    if held == 0 {
        return (0, 0);
    }
    (number_at(bytes, at, held) << (64 - held), held)
}

/// The bits from the place `end` on as a word, and how many they are. Those from `at` on are held in a word, so many.
#[inline(always)]
pub fn next_word(bytes: &[u8], at: usize, word: u64, held: usize, end: usize) -> (u64, usize)
    requires few { length bytes.now < 2 ^ 60 }
    requires order { at ≤ end }
    requires inside { end ≤ 8 * length bytes.now }
    requires word { IsWord (drop at (bits_of bytes.now)) held word }
    ensures word { IsWord (drop end (bits_of bytes.now)) result.1 result.0 }
    ensures some { result.1 ≡ 0 → end ≡ 8 * length bytes.now }
{
    let passed = end - at;
    if passed < held {
        return (word << passed, held - passed);
    }
    word_at(bytes, end)
}

/// The first of the bits that a word holds.
pub fn first_bit(word: u64) -> bool
    ensures { (bits : List Bool) (held : ℕ) → IsWord bits held word → 0 < held → bits ≡ result ∷ drop 1 bits }
{
    word >> 63 == 1
}

/// The number of the gamma code that begins at a place, and the place behind the code. The bits from the place on are held in a word, so many: a code that is whole among them is read at once.
#[inline(always)]
pub fn next_code(
    bytes: &[u8],
    at: usize,
    word: u64,
    held: usize,
    most: u64,
) -> Result<(u64, usize), BitFault>
    requires few { length bytes.now < 2 ^ 60 }
    requires inside { at ≤ 8 * length bytes.now }
    requires word { IsWord (drop at (bits_of bytes.now)) held word }
    requires most { most < 2 ^ 63 }
    ensures number { IfOk result (λ c. c.0 ≤ most) }
    ensures code { IfOk result (λ c. Begins (drop at (bits_of bytes.now)) c.0 (drop c.1 (bits_of bytes.now))) }
    ensures end { IfOk result (λ c. (c.1 ≡ at + length (gamma c.0)) × (c.1 ≤ 8 * length bytes.now)) }
    ensures too_large { (result ≡ Err BitFault.TooLarge) ↔ BeginsAbove (drop at (bits_of bytes.now)) most }
    ensures ended { (result ≡ Err BitFault.Ended) ↔ HasNoCode (drop at (bits_of bytes.now)) }
{
    let count = 2 * word.leading_zeros() as usize + 1;
    if held < count {
        return code_at(bytes, at, most);
    }
    let number = word >> (64 - count);
    if number > most {
        return Err(BitFault::TooLarge);
    }
    Ok((number, at + count))
}
