// A reader of bits and gamma codes.
ghost use Rattle.std.specs.Prelude.{◌≡◌, ◌+◌, ◌-◌, ◌^◌, ◌<◌, ◌≤◌, ◌↔◌, [], ◌∷◌, length, drop, IfOk, OnOk, OnErr, IsErr, IsOkUnless, IsTrue, Err};
ghost use Rattle.bit_pack.specs.Bits.{bits_of};
ghost use Rattle.bit_pack.specs.Gamma.{gamma, Begins, BeginsAbove, HasNoCode};
ghost use Rattle.bit_pack.specs.Reading.{IsPadding};

use crate::fault::BitFault;
use crate::scan::is_padding;
use crate::word::{first_bit, first_word, next_code, next_word};
use std::marker::Model;

/// A reader of the bits of bytes, the most significant bit of each byte first.
///
/// It takes no memory. After a fault it is as it was before, and may go on otherwise.
#[derive(Drop)]
pub struct BitReader<'a> {
    bytes: &'a [u8],
    at: usize,
    /// The next bits, so many, in a word.
    word: u64,
    held: usize,
}

impl<'a> Model for BitReader<'a> {
    ghost use Rattle.std.specs.Prelude.{drop};
    ghost use Rattle.bit_pack.specs.Bits.{bits_of};
    ghost use Rattle.bit_pack.specs.Reading.{Reading, IsReaderAt};

    ghost Value = { Reading };

    ghost view = { λ r. record { at = r.at; left = drop r.at (bits_of r.bytes.now) } };

    ghost invariant = { λ r. IsReaderAt r.bytes.now r.at r.held r.word };
}

impl<'a> BitReader<'a> {
    /// Opens a reader of the bits of `bytes`, at the first of them.
    pub fn new(bytes: &'a [u8]) -> BitReader<'a>
        requires { length bytes.now < 2 ^ 60 }
        ensures { result ≡ record { at = 0; left = bits_of bytes.now } }
    {
        let (word, held) = first_word(bytes);
        BitReader {
            bytes,
            at: 0,
            word,
            held,
        }
    }

    /// How many bits have been read.
    pub fn at(&self) -> u64
        ensures { result ≡ self.now.at }
    {
        self.at as u64
    }

    /// Reads one bit. The only fault is `Ended`.
    #[inline(always)]
    pub fn bit(&mut self) -> Result<bool, BitFault>
        ensures ok { IfOk result (λ b. self.old.left ≡ b ∷ self.new.left) }
        ensures at { OnOk result (self.new.at ≡ self.old.at + 1) }
        ensures ended { IsErr result ↔ (self.old.left ≡ []) }
        ensures fault { IsOkUnless result BitFault.Ended }
        ensures err { OnErr result (self.new ≡ self.old) }
    {
        if self.held == 0 {
            return Err(BitFault::Ended);
        }
        let bit = first_bit(self.word);
        self.go_to(self.at + 1);
        Ok(bit)
    }

    /// Reads the Elias gamma code of a number from 1 to `most`.
    ///
    /// A whole code of a larger number is a `TooLarge`, also where the number has more than 64 binary
    /// digits. A code that is cut off is an `Ended`. A code among the bits of one word is read at once.
    #[inline(always)]
    pub fn gamma(&mut self, most: u64) -> Result<u64, BitFault>
        requires { most < 2 ^ 63 }
        ensures number { IfOk result (λ n. n ≤ most) }
        ensures code { IfOk result (λ n. Begins self.old.left n self.new.left) }
        ensures at { IfOk result (λ n. self.new.at ≡ self.old.at + length (gamma n)) }
        ensures too_large { (result ≡ Err BitFault.TooLarge) ↔ BeginsAbove self.old.left most }
        ensures ended { (result ≡ Err BitFault.Ended) ↔ HasNoCode self.old.left }
        ensures err { OnErr result (self.new ≡ self.old) }
    {
        let (number, end) = next_code(self.bytes, self.at, self.word, self.held, most)?;
        self.go_to(end);
        Ok(number)
    }

    /// Goes on to a place.
    #[inline(always)]
    fn go_to(&mut self, end: usize)
        requires order { self.old.at ≤ end }
        requires inside { end ≤ self.old.at + length self.old.left }
        ensures at { self.new.at ≡ end }
        ensures left { self.new.left ≡ drop (end - self.old.at) self.old.left }
    {
        let (word, held) = next_word(self.bytes, self.at, self.word, self.held, end);
        self.at = end;
        self.word = word;
        self.held = held;
    }

    /// Whether fewer than eight bits are left, and all of them are zero.
    pub fn padding(&self) -> bool
        ensures { IsTrue result ↔ IsPadding self.now.left }
    {
        is_padding(self.bytes, self.at)
    }
}
