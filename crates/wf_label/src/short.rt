// Labels of at most eight bytes, read in a word of 64 bits.
ghost use Rattle.std.specs.Prelude.{◌≡◌, ◌+◌, ◌-◌, ◌*◌, ◌<◌, ◌≤◌, ◌↔◌, [], ◌∷◌, length, drop, take, IfSome, IsTrue};
ghost use Rattle.bit_pack.specs.Bits.{bits_of, number, AreBytes};
ghost use Rattle.bit_pack.specs.Reading.{IsWord, IsPadding};

use crate::check::Malformed;
use crate::codes::Codes;
use bit_pack::number_of;
use std::marker::Model;

/// At most eight bytes, and their bits as a word, which ends in zero bits.
#[derive(Clone, Copy)]
pub(crate) struct ShortBytes<'a> {
    pub(crate) bytes: &'a [u8],
    pub(crate) word: u64,
    pub(crate) ghost are: { AreBytes bytes.now },
    pub(crate) ghost held: { IsWord (bits_of bytes.now) (8 * length bytes.now) word },
}

impl<'a> ShortBytes<'a> {
    /// The bytes with their bits; None where they are none, or more than eight.
    #[inline(always)]
    pub(crate) fn of(bytes: &'a [u8]) -> Option<ShortBytes<'a>>
        ensures { IfSome result (λ s. s.bytes.now ≡ bytes.now) }
    {
        let count = bytes.len();
        if count == 0 || count > 8 {
            return None;
        }
        Some(ShortBytes {
            bytes,
            word: number_of(bytes) << (64 - 8 * count),
        })
    }

    /// The number of the first bits, so many.
    #[inline(always)]
    pub(crate) fn front(self, count: usize) -> u64
        requires some { 0 < count }
        requires inside { count ≤ 8 * length self.bytes.now }
        ensures { result ≡ number (take count (bits_of self.entry.bytes.now)) }
    {
        self.word >> (64 - count)
    }
}

/// A reader of the bits of at most eight bytes. All bits that are left are held in a word.
#[derive(Drop)]
pub struct ShortReader<'a> {
    bytes: &'a [u8],
    at: usize,
    word: u64,
    held: usize,
}

impl<'a> Model for ShortReader<'a> {
    ghost use Rattle.std.specs.Prelude.{drop};
    ghost use Rattle.bit_pack.specs.Bits.{bits_of};
    ghost use Rattle.bit_pack.specs.Reading.{Reading};
    ghost use Rattle.wf_label.specs.ShortBits.{IsShortAt};

    ghost Value = { Reading };

    ghost view = { λ r. record { at = r.at; left = drop r.at (bits_of r.bytes.now) } };

    ghost invariant = { λ r. IsShortAt r.bytes.now r.at r.held r.word };
}

impl<'a> ShortReader<'a> {
    /// A reader that stands behind the first bits, so many.
    #[inline(always)]
    pub(crate) fn new(short: ShortBytes<'a>, at: usize) -> ShortReader<'a>
        requires inside { at ≤ 8 * length short.bytes.now }
        requires few { at < 64 }
        ensures { result ≡ record { at = at; left = drop at (bits_of short.entry.bytes.now) } }
    {
        ShortReader {
            bytes: short.bytes,
            at,
            word: short.word << at,
            held: 8 * short.bytes.len() - at,
        }
    }

    /// How many bits stand before the reader.
    #[inline(always)]
    pub(crate) fn at(&self) -> usize
        ensures { result ≡ self.now.at }
    {
        self.at
    }

    /// Goes on by so many bits.
    #[inline(always)]
    fn go_on(&mut self, count: usize)
        requires inside { count ≤ length self.old.left }
        requires few { count < 64 }
        ensures at { self.new.at ≡ self.old.at + count }
        ensures left { self.new.left ≡ drop count self.old.left }
    {
        self.at += count;
        self.word <<= count;
        self.held -= count;
    }

    /// Whether fewer than eight bits are left, and all of them are zero.
    #[inline(always)]
    pub(crate) fn padding(&self) -> bool
        ensures { IsTrue result ↔ IsPadding self.now.left }
    {
        self.held < 8 && self.word == 0
    }
}

impl<'a> Codes for ShortReader<'a> {
    ghost reading = { λ r. r };

    #[inline(always)]
    fn next_bit(&mut self) -> Result<bool, Malformed> {
        if self.held == 0 {
            return Err(Malformed);
        }
        let bit = self.word >> 63 == 1;
        self.go_on(1);
        Ok(bit)
    }

    #[inline(always)]
    fn next_number(&mut self, count: usize) -> Result<usize, Malformed> {
        let long = 2 * self.word.leading_zeros() as usize + 1;
        if self.held < long {
            return Err(Malformed);
        }
        let number = self.word >> (64 - long);
        if number > count as u64 {
            return Err(Malformed);
        }
        self.go_on(long);
        Ok(number as usize - 1)
    }
}
