// Bits that are held by bytes.
ghost use Rattle.std.specs.Prelude.{◌≡◌, ◌+◌, ◌*◌, ◌^◌, ◌<◌, ◌≤◌, length};
ghost use Rattle.bit_pack.specs.Bits.{packed, Holds};
ghost use Rattle.bit_pack.specs.Written.{first_bits, IsFilled};

use crate::writer::BitWriter;
use std::marker::Model;

/// Bytes that are filled with bits: those into which the bits are packed.
pub(crate) fn packed_bytes(bytes: &[u8], end: u32) -> &[u8]
    requires { IsFilled bytes.now end }
    ensures packed { result.now ≡ packed (first_bits bytes.now end) }
    ensures few { 8 * length result.now < length (first_bits bytes.now end) + 8 }
{
    bytes
}

/// Bits in bytes, as a writer leaves them. A caller sees them as a list of bits.
#[derive(Drop)]
pub struct Bits {
    written: BitWriter,
}

impl Model for Bits {
    ghost use Rattle.std.specs.Prelude.{Bool, List};

    ghost Value = { List Bool };

    ghost view = { λ b. b.written };
}

impl Bits {
    /// The bits that were written.
    pub(crate) fn new(written: BitWriter) -> Bits
        ensures { result ≡ written }
    {
        Bits { written }
    }

    /// The bytes that hold the bits.
    ///
    /// The first bit is the most significant of the first byte, and zero bits fill the last byte.
    pub fn bytes(&self) -> &[u8]
        ensures holds { Holds result.now self.now }
        ensures packed { result.now ≡ packed self.now }
        ensures few { length result.now ≤ 2 ^ 29 }
    {
        // There are fewer than 2^32 bits.
        let _count = self.written.length();
        self.written.bytes()
    }

    /// How many bits there are.
    pub fn length(&self) -> u32
        ensures { result ≡ length self.now }
    {
        self.written.length()
    }
}
