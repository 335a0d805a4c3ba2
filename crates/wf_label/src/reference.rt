// Labels that lie in bytes.
ghost use Rattle.std.specs.Prelude.{◌≡◌, ◌^◌, ◌≤◌, length};
ghost use Rattle.bit_pack.specs.Bits.{packed, Holds};
ghost use Rattle.bit_pack.specs.Written.{first_bits, IsWhole};

use std::marker::Model;

/// The bits of a label, in bytes that they fill. A caller sees it as its bits.
#[derive(Drop)]
pub struct LabelRef<'a> {
    bytes: &'a [u8],
    end: u32,
}

impl<'a> Model for LabelRef<'a> {
    ghost use Rattle.std.specs.Prelude.{Bool, List};
    ghost use Rattle.bit_pack.specs.Written.{first_bits, IsWhole};

    ghost Value = { List Bool };

    ghost view = { λ r. first_bits r.bytes.now r.end };

    ghost invariant = { λ r. IsWhole r.bytes.now r.end };
}

impl<'a> LabelRef<'a> {
    /// The first bits of bytes, so many, which only fewer than eight zero bits follow. Whether they are a label is not tried.
    pub fn new(bytes: &'a [u8], end: u32) -> LabelRef<'a>
        requires { IsWhole bytes.now end }
        ensures { result ≡ first_bits bytes.now end }
    {
        LabelRef { bytes, end }
    }

    /// The bytes, with fewer than eight zero bits at the end. Takes no memory.
    pub fn bytes(&self) -> &'a [u8]
        ensures holds { Holds result.now self.now }
        ensures packed { result.now ≡ packed self.now }
        ensures few { length result.now ≤ 2 ^ 29 }
    {
        self.bytes
    }

    /// The same label, in the same bytes. Takes no memory.
    pub fn copied(&self) -> LabelRef<'a>
        ensures { result ≡ self.now }
    {
        LabelRef {
            bytes: self.bytes,
            end: self.end,
        }
    }

    /// How many bits there are, without those that fill the last byte.
    pub fn length(&self) -> u32
        ensures { result ≡ length self.now }
    {
        self.end
    }
}
