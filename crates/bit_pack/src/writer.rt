// A writer of bits and gamma codes.
ghost use Rattle.std.specs.Prelude.{◌≡◌, ◌+◌, ◌*◌, ◌^◌, ◌<◌, ◌≤◌, false, [], ◌∷◌, ◌++◌, length, take, replicate, IfOk, OnOk, OnErr};
ghost use Rattle.bit_pack.specs.Bits.{low_bits, packed};
ghost use Rattle.bit_pack.specs.Gamma.{gamma};
ghost use Rattle.bit_pack.specs.Written.{first_bits, IsFilled};

use crate::bits::{Bits, packed_bytes};
use crate::cut::cut;
use crate::put::append;
use crate::short::{first_of, held, spill, take_over, with_digits, word_of};
use std::alloc::{AllocError, Global};
use std::marker::Model;

/// A writer of bits, one after another. A caller sees it as the list of the bits that it has written.
///
/// At most 64 bits take no memory, and more take a byte for each eight. This memory is kept where the writer begins anew. Before a bit or a code, fewer than 2^31 bits have been written.
#[derive(Drop)]
pub struct BitWriter {
    /// The bytes of the bits, where these are more than 64.
    bytes: Vec<u8>,
    end: u32,
    /// The bits, where they are at most 64, and then zero bits.
    word: u64,
    /// The bytes of the word.
    eight: [u8; 8],
}

impl Model for BitWriter {
    ghost use Rattle.std.specs.Prelude.{Bool, List};
    ghost use Rattle.bit_pack.specs.Written.{first_bits, held_bytes, IsHeldBy};

    ghost Value = { List Bool };

    ghost view = { λ w. first_bits (held_bytes w.eight w.bytes.items w.end) w.end };

    ghost invariant = { λ w. IsHeldBy w.eight w.bytes.items w.end w.word };
}

impl BitWriter {
    /// A writer with no bits. It takes no memory.
    pub fn new(alloc: Global) -> BitWriter
        ensures { result ≡ [] }
    {
        BitWriter {
            bytes: Vec::new(alloc),
            end: 0,
            word: 0,
            eight: [0; 8],
        }
    }

    /// A writer that goes on behind the bits that bytes hold, so many of them. The bytes are copied.
    ///
    /// The only error is that memory is refused.
    pub fn resume(alloc: Global, bytes: &[u8], length: u32) -> Result<BitWriter, AllocError>
        requires { IsFilled bytes.now length }
        ensures { IfOk result (λ w. w ≡ first_bits bytes.now length) }
    {
        let mut writer = BitWriter::new(alloc);
        writer.restart(bytes, length)?;
        Ok(writer)
    }

    /// A writer that goes on behind the bits that bytes hold, so many of them. The bytes are kept.
    pub(crate) fn of_filled(bytes: Vec<u8>, count: u32) -> BitWriter
        requires { IsFilled bytes.items count }
        ensures { result ≡ first_bits bytes.items count }
    {
        let word = word_of(&bytes, count);
        BitWriter {
            bytes,
            end: count,
            word,
            eight: word.to_be_bytes(),
        }
    }

    /// Goes on behind the bits that bytes hold, so many of them, in place of those that were written. The bytes are copied.
    ///
    /// The only error is that memory is refused, and then there are no bits. Where at most 64 bits are held, or bytes as many were written before, no memory is taken.
    pub fn restart(&mut self, bytes: &[u8], count: u32) -> Result<(), AllocError>
        requires { IsFilled bytes.now count }
        ensures ok { OnOk result (self.new ≡ first_bits bytes.now count) }
        ensures err { OnErr result (self.new ≡ []) }
    {
        self.end = 0;
        self.word = 0;
        self.eight = [0; 8];
        take_over(&mut self.bytes, bytes, count)?;
        self.end = count;
        self.word = word_of(bytes, count);
        self.eight = self.word.to_be_bytes();
        Ok(())
    }

    /// How many bits are written.
    #[inline(always)]
    pub fn length(&self) -> u32
        ensures { result ≡ length self.now }
    {
        self.end
    }

    /// The bytes that hold the bits. Zero bits fill the last byte.
    pub fn bytes(&self) -> &[u8]
        ensures packed { result.now ≡ packed self.now }
        ensures few { 8 * length result.now < length self.now + 8 }
    {
        packed_bytes(held(&self.eight, &self.bytes, self.end), self.end)
    }

    /// Cuts off the bits behind the first ones, so many. It keeps the memory.
    pub fn cut(&mut self, count: u32)
        requires { count ≤ length self.old }
        ensures bits { self.new ≡ take count self.old }
        ensures length { length self.new ≡ count }
    {
        if self.length() > 64 {
            return self.cut_long(count);
        }
        if count < 64 {
            self.cut_short(count);
        }
    }

    /// Writes one bit. The only error is that memory is refused.
    #[inline]
    pub fn bit(&mut self, b: bool) -> Result<(), AllocError>
        requires { length self.old < 2 ^ 31 }
        ensures ok { OnOk result (self.new ≡ self.old ++ b ∷ []) }
        ensures one { OnOk result (length self.new ≡ length self.old + 1) }
        ensures err { OnErr result (self.new ≡ self.old) }
    {
        self.write(0, b as u64, 1)
    }

    /// Writes the Elias gamma code of a number from 1 on: with k binary digits, 2k - 1 bits.
    ///
    /// The only error is that memory is refused, and then none of the code is written: its room is
    /// reserved once. Among at most 64 bits it is a shift and a sum; behind more, zeros and digits are put byte by byte.
    #[inline]
    pub fn gamma(&mut self, n: u64) -> Result<(), AllocError>
        requires from_one { 1 ≤ n }
        requires room { length self.old < 2 ^ 31 }
        ensures ok { OnOk result (self.new ≡ self.old ++ gamma n) }
        ensures few { OnOk result (length self.new ≤ length self.old + 127) }
        ensures err { OnErr result (self.new ≡ self.old) }
    {
        let digits = 64 - n.leading_zeros();
        self.write(digits - 1, n, digits)
    }

    /// Writes the Elias gamma code of a number from 1 on behind the first bits, so many, in place of what stands there.
    ///
    /// The only error is that memory is refused, and then some of what stands behind the first bits may be cut off.
    #[inline]
    pub fn gamma_behind(&mut self, begun: u32, n: u64) -> Result<(), AllocError>
        requires from_one { 1 ≤ n }
        requires begun { begun ≤ length self.old }
        requires room { begun < 2 ^ 31 }
        ensures ok { OnOk result (self.new ≡ take begun self.old ++ gamma n) }
        ensures few { OnOk result (length self.new ≤ begun + 127) }
        ensures err { OnErr result (take begun self.new ≡ take begun self.old) }
    {
        let digits = 64 - n.leading_zeros();
        let count = digits - 1 + digits;
        if self.length() <= 64 && begun + count <= 64 {
            self.write_short(begun, n, count);
            return Ok(());
        }
        self.cut(begun);
        self.gamma(n)
    }

    /// Ends the writing: the bits that are written, in bytes.
    pub fn finish(self) -> Bits
        ensures { result ≡ self }
    {
        Bits::new(self)
    }

    /// Writes zero bits, and then the digits of a number.
    #[inline(always)]
    fn write(&mut self, zeros: u32, number: u64, digits: u32) -> Result<(), AllocError>
        requires room { length self.old < 2 ^ 31 }
        requires zeros { zeros < 64 }
        requires some { 0 < digits }
        requires digits { digits ≤ 64 }
        requires fits { number < 2 ^ digits }
        ensures ok { OnOk result (self.new ≡ self.old ++ (replicate zeros false ++ low_bits digits number)) }
        ensures more { OnOk result (length self.new ≡ length self.old + zeros + digits) }
        ensures err { OnErr result (self.new ≡ self.old) }
    {
        let end = self.length();
        if end + zeros + digits <= 64 {
            self.write_short(end, number, zeros + digits);
            return Ok(());
        }
        self.write_long(zeros, number, digits)
    }

    /// Writes the digits of a number behind the first bits, so many, in place of what stands there. There are at most 64 bits, and with the digits, too.
    #[inline(always)]
    fn write_short(&mut self, begun: u32, number: u64, count: u32)
        requires begun { begun ≤ length self.old }
        requires few { length self.old ≤ 64 }
        requires some { 0 < count }
        requires short { begun + count ≤ 64 }
        requires fits { number < 2 ^ count }
        ensures bits { self.new ≡ take begun self.old ++ low_bits count number }
        ensures more { length self.new ≡ begun + count }
    {
        let word = with_digits(self.word, begun, number, count);
        self.end = begun + count;
        self.word = word;
        self.eight = word.to_be_bytes();
    }

    /// Cuts off bits behind the first ones, where there are at most 64.
    #[inline(always)]
    fn cut_short(&mut self, count: u32)
        requires few { length self.old ≤ 64 }
        requires within { count ≤ length self.old }
        requires short { count < 64 }
        ensures bits { self.new ≡ take count self.old }
        ensures length { length self.new ≡ count }
    {
        let word = first_of(self.word, count);
        self.end = count;
        self.word = word;
        self.eight = word.to_be_bytes();
    }

    /// Cuts off bits behind the first ones, where there are more than 64.
    #[cold]
    fn cut_long(&mut self, count: u32)
        requires many { 64 < length self.old }
        requires within { count ≤ length self.old }
        ensures bits { self.new ≡ take count self.old }
        ensures length { length self.new ≡ count }
    {
        cut(&mut self.bytes, count);
        self.end = count;
        self.word = word_of(&self.bytes, count);
        self.eight = self.word.to_be_bytes();
    }

    /// Writes zero bits, and then the lowest digits of a number, to more than 64 bits in all.
    #[cold]
    fn write_long(&mut self, zeros: u32, number: u64, digits: u32) -> Result<(), AllocError>
        requires room { length self.old < 2 ^ 31 }
        requires zeros { zeros < 64 }
        requires digits { digits ≤ 64 }
        requires long { 64 < length self.old + zeros + digits }
        ensures ok { OnOk result (self.new ≡ self.old ++ (replicate zeros false ++ low_bits digits number)) }
        ensures more { OnOk result (length self.new ≡ length self.old + zeros + digits) }
        ensures err { OnErr result (self.new ≡ self.old) }
    {
        spill(&mut self.bytes, &self.eight, self.end)?;
        append(&mut self.bytes, self.end, zeros, number, digits)?;
        self.end += zeros + digits;
        Ok(())
    }
}
