// Readers of the bits of a label, and of the codes of its numbers.
ghost use Rattle.std.specs.Prelude.{◌≡◌, ◌↔◌, ◌+◌, ◌^◌, ◌<◌, [], ◌∷◌, IfOk, OnOk, IsErr};
ghost use Rattle.bit_pack.specs.Reading.{Reading};
ghost use Rattle.wf_label.specs.Parts.{IsNumberRead, HasNoNumber};

use crate::check::Malformed;
use bit_pack::BitReader;

/// A reader of bits from the front, and of the codes of numbers among them.
pub trait Codes {
    /// How many bits have been read, and those that are left.
    ghost reading: { Self → Reading };

    /// Reads one bit, if one is left.
    fn next_bit(&mut self) -> Result<bool, Malformed>
        ensures ok { IfOk result (λ b. (reading self.old).left ≡ b ∷ (reading self.new).left) }
        ensures at { OnOk result ((reading self.new).at ≡ (reading self.old).at + 1) }
        ensures ended { IsErr result → (reading self.old).left ≡ [] };

    /// Reads the code of a number with one added. The number is below `count`.
    fn next_number(&mut self, count: usize) -> Result<usize, Malformed>
        requires { count < 2 ^ 63 }
        ensures below { IfOk result (λ n. n < count) }
        ensures read { IfOk result (λ n. IsNumberRead n (reading self.old) (reading self.new)) }
        ensures malformed { IsErr result → HasNoNumber count (reading self.old).left };
}

/// Reads the code of a number with one added. The number is below `count`.
#[inline(always)]
pub(crate) fn read_number(reader: &mut BitReader<'_>, count: usize) -> Result<usize, Malformed>
    requires { count < 2 ^ 63 }
    ensures below { IfOk result (λ n. n < count) }
    ensures read { IfOk result (λ n. IsNumberRead n reader.old reader.new) }
    ensures malformed { IsErr result → HasNoNumber count reader.old.left }
{
    match reader.gamma(count as u64) {
        Ok(number) => Ok(number as usize - 1),
        Err(_) => Err(Malformed),
    }
}

impl<'a> Codes for BitReader<'a> {
    ghost reading = { λ r. r };

    #[inline(always)]
    fn next_bit(&mut self) -> Result<bool, Malformed> {
        match self.bit() {
            Ok(bit) => Ok(bit),
            Err(_) => Err(Malformed),
        }
    }

    #[inline(always)]
    fn next_number(&mut self, count: usize) -> Result<usize, Malformed> {
        read_number(self, count)
    }
}
