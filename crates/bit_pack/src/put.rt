// Binary digits that are written into bytes. The first bit is the most significant of the first byte.
ghost use Rattle.std.specs.Prelude.{◌≡◌, ◌+◌, ◌*◌, ◌%◌, ◌^◌, ◌<◌, ◌≤◌, false, ◌++◌, length, replicate, OnOk, OnErr};
ghost use Rattle.bit_pack.specs.Bits.{low_bits};
ghost use Rattle.bit_pack.specs.Written.{first_bits, HasRoom, IsFilled, IsFree, Writes};

use std::alloc::AllocError;

/// Makes room for some bits by zero bytes at the end.
fn make_room(bytes: &mut Vec<u8>, at: u32, count: u32) -> Result<(), AllocError>
    requires filled { IsFilled bytes.old.items at }
    requires few { at + count < 2 ^ 32 }
    ensures ok { OnOk result (HasRoom bytes.old.items bytes.new.items at count) }
    ensures err { OnErr result (bytes.new.items ≡ bytes.old.items) }
{
    let wanted = (at as usize + count as usize + 7) / 8;
    // A short code often ends in the last byte.
    if bytes.len() == wanted {
        return Ok(());
    }
    bytes.resize(wanted, 0)?;
    Ok(())
}

/// Writes digits into one byte, whose bits from a place on are zero.
fn put_part(bytes: &mut [u8], at: usize, part: u8, count: usize)
    requires free { IsFree bytes.old at }
    requires some { 0 < count }
    requires one_byte { at % 8 + count ≤ 8 }
    requires inside { at < 8 * length bytes.old }
    requires fits { part < 2 ^ count }
    ensures { Writes bytes.old bytes.new at (low_bits count part) }
{
    let byte = bytes[at / 8];
    bytes[at / 8] = byte + (part << (8 - at % 8 - count));
}

/// Writes the lowest digits of a number, so many, byte by byte. The bytes have zero bits there.
pub(crate) fn put_number(bytes: &mut [u8], from: usize, number: u64, count: usize)
    requires free { IsFree bytes.old from }
    requires few { length bytes.old < 2 ^ 60 }
    requires inside { from + count ≤ 8 * length bytes.old }
    requires fits { count ≤ 64 }
    ensures { Writes bytes.old bytes.new from (low_bits count number) }
{
    let mut at = from;
    let mut left = count;
    while 0 < left {
        let part = (8 - at % 8).min(left);
        left -= part;
        let digits = ((number >> left) & (255 >> (8 - part))) as u8;
        put_part(bytes, at, digits, part);
        at += part;
    }
}

/// Writes zero bits and then the lowest digits of a number behind the bits that are there.
pub fn append(
    bytes: &mut Vec<u8>,
    at: u32,
    zeros: u32,
    number: u64,
    digits: u32,
) -> Result<(), AllocError>
    requires filled { IsFilled bytes.old.items at }
    requires few { at < 2 ^ 31 }
    requires zeros { zeros < 64 }
    requires digits { digits ≤ 64 }
    ensures bits { OnOk result
        (first_bits bytes.new.items (at + (zeros + digits))
        ≡ first_bits bytes.old.items at ++ (replicate zeros false ++ low_bits digits number)) }
    ensures filled { OnOk result (IsFilled bytes.new.items (at + (zeros + digits))) }
    ensures err { OnErr result (bytes.new.items ≡ bytes.old.items) }
{
    make_room(bytes, at, zeros + digits)?;
    put_number(bytes, (at + zeros) as usize, number, digits as usize);
    Ok(())
}
