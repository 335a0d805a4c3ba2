// Gamma codes in bytes.
ghost use Rattle.std.specs.Prelude.{◌≡◌, ◌+◌, ◌*◌, ◌^◌, ◌<◌, ◌≤◌, ◌↔◌, length, drop, IfOk, Err};
ghost use Rattle.bit_pack.specs.Bits.{bits_of};
ghost use Rattle.bit_pack.specs.Gamma.{gamma, Begins, BeginsAbove, HasNoCode};

use crate::fault::BitFault;
use crate::scan::{next_one, number_at};

/// The number of the gamma code that begins at a place, and the place behind the code.
#[cold]
pub fn code_at(bytes: &[u8], at: usize, most: u64) -> Result<(u64, usize), BitFault>
    requires few { length bytes.now < 2 ^ 60 }
    requires inside { at ≤ 8 * length bytes.now }
    requires most { most < 2 ^ 63 }
    ensures number { IfOk result (λ c. c.0 ≤ most) }
    ensures code { IfOk result (λ c. Begins (drop at (bits_of bytes.now)) c.0 (drop c.1 (bits_of bytes.now))) }
    ensures end { IfOk result (λ c. (c.1 ≡ at + length (gamma c.0)) × (c.1 ≤ 8 * length bytes.now)) }
    ensures too_large { (result ≡ Err BitFault.TooLarge) ↔ BeginsAbove (drop at (bits_of bytes.now)) most }
    ensures ended { (result ≡ Err BitFault.Ended) ↔ HasNoCode (drop at (bits_of bytes.now)) }
{
    let Some(one) = next_one(bytes, at) else {
        return Err(BitFault::Ended);
    };
    let zeros = one - at;
    if 8 * bytes.len() - one <= zeros {
        return Err(BitFault::Ended);
    }
    // So many zeros are those of a number of at least 2^63.
    if zeros > 62 {
        return Err(BitFault::TooLarge);
    }
    let number = number_at(bytes, one, zeros + 1);
    if number > most {
        return Err(BitFault::TooLarge);
    }
    Ok((number, one + zeros + 1))
}
