// Words of hexadecimal digits.
ghost use Rattle.std.specs.Prelude.{◌≡◌, ◌↔◌, is_ok, IsTrue, IfOk};
ghost use Rattle.std.specs.List.{AllPass};
ghost use Rattle.hex.specs.Hex.{decode_of, is_hex_digit};
ghost use Rattle.label_words.specs.Digits.{AreDigits, bytes_in};

use std::alloc::{AllocError, Global};

/// A word of hexadecimal digits of either case, two for each byte. `is_hex` tells whether a word is one.
#[derive(Clone, Copy)]
pub struct HexWord<'w> {
    pub word: &'w str,
    pub ghost digits: { AreDigits word.now },
}

impl HexWord<'_> {
    /// The bytes that the digits tell. Fails only for want of memory.
    pub fn bytes(self, alloc: Global) -> Result<Vec<u8>, AllocError>
        ensures { IfOk result (λ bytes. bytes.items ≡ bytes_in (decode_of self.entry.word.now)) }
    {
        match hex::decode(alloc, self.word) {
            Ok(bytes) => Ok(bytes),
            Err(_) => Err(AllocError),
        }
    }
}

/// Whether a byte is a hexadecimal digit of either case.
fn is_digit(byte: u8) -> bool
    ensures { result ≡ is_hex_digit byte }
{
    byte.is_ascii_hexdigit()
}

/// Whether bytes are hexadecimal digits of either case.
fn are_digits(bytes: &[u8]) -> bool
    ensures { IsTrue result ↔ AllPass is_hex_digit bytes.now }
{
    bytes.iter().all(|&byte| is_digit(byte))
}

/// Whether a word is hexadecimal digits of either case, two for each byte. Takes no memory.
pub fn is_hex(word: &str) -> bool
    ensures { result ≡ is_ok (decode_of word.now) }
{
    let digits = word.as_bytes();
    digits.len() % 2 == 0 && are_digits(digits)
}
