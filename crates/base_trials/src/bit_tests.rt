// Bits and codes that were worked by hand.
ghost use Rattle.std.specs.Prelude.{◌^◌, ◌<◌, length};

use bit_pack::{BitFault, BitReader, BitWriter, Bits};
use std::alloc::Global;
use std::test::Fail;

/// What is written: a bit, or the code of a number from 1 on.
#[derive(Clone, Copy)]
enum Part {
    Bit(bool),
    Code(u64),
}

/// A call of a reader, and what it gives: the next bit; the number of the next code, where a number up to the first one is asked for; how many bits have been read; and whether zeros alone are left in the last byte.
#[derive(Clone, Copy)]
enum Call {
    Bit(Result<bool, BitFault>),
    Code(u64, Result<u64, BitFault>),
    At(u64),
    Padding(bool),
}

/// The greatest number that a reader may be asked for.
const MOST: u64 = (1 << 63) - 1;

/// A bit, the codes of 255 and 256, a bit, and the codes of 2^32, 2^63 - 1 and 2^64 - 1.
const LONG: &[u8] = &[
    0x80, 0xff, 0x00, 0x80, 0x00, 0x00, 0x00, 0x00, 0x20, 0x00, 0x00, 0x00, 0x00, 0x00, 0x00, 0x00,
    0x00, 0x00, 0x00, 0x00, 0x7f, 0xff, 0xff, 0xff, 0xff, 0xff, 0xff, 0xff, 0x00, 0x00, 0x00, 0x00,
    0x00, 0x00, 0x00, 0x01, 0xff, 0xff, 0xff, 0xff, 0xff, 0xff, 0xff, 0xfe,
];

/// Each line: what is written, the bytes, and how many bits they hold. The codes of 1 to 4 are 1, 010, 011 and 00100: one after another 1010 0110 0100.
const WRITTEN: [(&[Part], &[u8], u32); 2] = [
    (
        &[Part::Code(1), Part::Code(2), Part::Code(3), Part::Code(4)],
        &[0xa6, 0x40],
        12,
    ),
    (
        &[
            Part::Bit(true),
            Part::Code(255),
            Part::Code(256),
            Part::Bit(false),
            Part::Code(4_294_967_296),
            Part::Code(MOST),
            Part::Code(u64::MAX),
        ],
        LONG,
        351,
    ),
];

/// 65 zeros, a one, and 70 bits behind it, of which 65 belong to the code.
const ZEROS: &[u8] = &[0, 0, 0, 0, 0, 0, 0, 0, 0x40, 0, 0, 0, 0, 0, 0, 0, 0];

/// The same, a byte shorter: the code is cut off.
const ZEROS_CUT: &[u8] = &[0, 0, 0, 0, 0, 0, 0, 0, 0x40, 0, 0, 0, 0, 0, 0, 0];

/// Each line: bytes, and calls of a reader of them, one after another.
const READ: [(&[u8], &[Call]); 8] = [
    (
        &[0x40],
        &[
            Call::Code(1, Err(BitFault::TooLarge)),
            Call::Code(2, Ok(2)),
            Call::At(3),
        ],
    ),
    (&[0x00], &[Call::Code(1, Err(BitFault::Ended))]),
    (&[], &[Call::Bit(Err(BitFault::Ended)), Call::Padding(true)]),
    (ZEROS, &[Call::Code(1, Err(BitFault::TooLarge))]),
    (ZEROS_CUT, &[Call::Code(1, Err(BitFault::Ended))]),
    (
        LONG,
        &[
            Call::Bit(Ok(true)),
            Call::Code(MOST, Ok(255)),
            Call::Code(256, Ok(256)),
            Call::Bit(Ok(false)),
            Call::Code(MOST, Ok(4_294_967_296)),
            Call::Code(MOST, Ok(MOST)),
            Call::Code(MOST, Err(BitFault::TooLarge)),
            Call::At(224),
        ],
    ),
    (
        &[0x80],
        &[
            Call::Padding(false),
            Call::Bit(Ok(true)),
            Call::Padding(true),
        ],
    ),
    (&[0x81], &[Call::Bit(Ok(true)), Call::Padding(false)]),
];

/// Writes a part behind fewer than 2^31 bits.
fn write(writer: &mut BitWriter, part: Part) -> Result<(), Fail>
    requires { length writer.old < 2 ^ 31 }
{
    match part {
        Part::Bit(bit) => writer.bit(bit)?,
        Part::Code(0) => return Err(Fail::new("a number from 1 on")),
        Part::Code(number) => writer.gamma(number)?,
    }
    Ok(())
}

fn written(alloc: Global, parts: &[Part]) -> Result<Bits, Fail> {
    let mut writer = BitWriter::new(alloc);
    for part in parts {
        if writer.length() > 1000 {
            return Err(Fail::new("few bits"));
        }
        write(&mut writer, *part)?;
    }
    Ok(writer.finish())
}

/// Whether parts are written as these bytes, which hold so many bits.
fn is_written(alloc: Global, parts: &[Part], bytes: &[u8], count: u32) -> Result<bool, Fail> {
    let bits = written(alloc, parts)?;
    Ok(bits.bytes() == bytes && bits.length() == count)
}

/// Whether a call of a reader gives what it should.
fn gives(reader: &mut BitReader<'_>, call: Call) -> bool {
    match call {
        Call::Bit(bit) => reader.bit() == bit,
        Call::Code(most, number) => most <= MOST && reader.gamma(most) == number,
        Call::At(count) => reader.at() == count,
        Call::Padding(is_padding) => reader.padding() == is_padding,
    }
}

/// Whether the calls of a reader of these bytes give what they should.
fn are_read(bytes: &[u8], calls: &[Call]) -> bool {
    if bytes.len() > 1000 {
        return false;
    }
    let mut reader = BitReader::new(bytes);
    for call in calls {
        if !gives(&mut reader, *call) {
            return false;
        }
    }
    true
}

#[test]
fn bits_and_codes_are_written_and_read(rt: HostRuntime) -> Result<(), Fail> {
    for (parts, bytes, count) in WRITTEN {
        assert!(rt; is_written(rt.alloc(), parts, bytes, count)?, "at {count}");
    }
    for (bytes, calls) in READ {
        assert!(rt; are_read(bytes, calls), "at {bytes:?}");
    }
    Ok(())
}
