// A writer of bits and gamma codes into a room that it has from the start.
ghost use Rattle.std.specs.Prelude.{◌≡◌, ◌+◌, ◌*◌, ◌^◌, ◌<◌, ◌≤◌, false, [], ◌++◌, length, replicate, vec_len, vec_capacity, IfOk};
ghost use Rattle.bit_pack.specs.Bits.{low_bits, packed};
ghost use Rattle.bit_pack.specs.Gamma.{gamma};
ghost use Rattle.bit_pack.specs.Written.{first_bits, HasRoom, IsFilled};

use crate::bits::{Bits, packed_bytes};
use crate::cut::cut;
use crate::put::put_number;
use crate::writer::BitWriter;
use std::alloc::{AllocError, Global};
use std::marker::Model;

/// A writer of bits, one after another, into a room for so many bits. A caller sees it as the list of the bits that it has written, and the room.
///
/// All its memory is taken where it is made.
#[derive(Drop)]
pub struct RoomyWriter {
    bytes: Vec<u8>,
    end: u32,
    room: u32,
}

impl Model for RoomyWriter {
    ghost use Rattle.std.specs.Prelude.{◌*◌, ◌≤◌, vec_capacity};
    ghost use Rattle.bit_pack.specs.Rooms.{BitsInRoom};
    ghost use Rattle.bit_pack.specs.Written.{first_bits, IsFilled};

    ghost Value = { BitsInRoom };

    ghost view = { λ w. record { bits = first_bits w.bytes.items w.end; room = w.room } };

    ghost invariant = { λ w. IsFilled w.bytes.items w.end × (w.room ≤ 8 * vec_capacity w.bytes) };
}

/// Puts bytes in place of those that are there, with room for them.
fn put_anew(bytes: &mut Vec<u8>, part: &[u8])
    requires { length part.now ≤ vec_capacity bytes.old }
    ensures items { bytes.new.items ≡ part.now }
    ensures capacity { vec_capacity bytes.old ≤ vec_capacity bytes.new }
{
    bytes.clear();
    bytes.extend_from_slice(part).unwrap();
}

/// Puts zero bytes at the end, so that some bits have their place. There is room for them.
fn fill_up(bytes: &mut Vec<u8>, at: u32, count: u32)
    requires filled { IsFilled bytes.old.items at }
    requires few { at + count < 2 ^ 32 }
    requires room { at + count ≤ 8 * vec_capacity bytes.old }
    ensures place { HasRoom bytes.old.items bytes.new.items at count }
    ensures capacity { vec_capacity bytes.old ≤ vec_capacity bytes.new }
{
    let wanted = (at as usize + count as usize + 7) / 8;
    bytes.resize(wanted, 0).unwrap();
}

/// Writes zero bits and then the lowest digits of a number behind the bits that are there, with room for all.
fn append_within(bytes: &mut Vec<u8>, at: u32, zeros: u32, number: u64, digits: u32)
    requires filled { IsFilled bytes.old.items at }
    requires few { at + (zeros + digits) < 2 ^ 32 }
    requires digits { digits ≤ 64 }
    requires room { at + (zeros + digits) ≤ 8 * vec_capacity bytes.old }
    ensures bits { first_bits bytes.new.items (at + (zeros + digits)) ≡ first_bits bytes.old.items at ++ (replicate zeros false ++ low_bits digits number) }
    ensures filled { IsFilled bytes.new.items (at + (zeros + digits)) }
    ensures capacity { vec_capacity bytes.old ≤ vec_capacity bytes.new }
{
    fill_up(bytes, at, zeros + digits);
    put_number(bytes, (at + zeros) as usize, number, digits as usize);
}

impl RoomyWriter {
    /// A writer with no bits, and with room for so many. Fails only for want of memory.
    pub fn with_room(alloc: Global, room: u32) -> Result<RoomyWriter, AllocError>
        ensures { IfOk result (λ w. w ≡ record { bits = []; room = room }) }
    {
        Ok(RoomyWriter {
            bytes: Vec::with_capacity(alloc, (room as usize + 7) / 8)?,
            end: 0,
            room,
        })
    }

    /// Goes on behind the first bits of bytes, so many of them, in place of those that were written. The bytes are copied.
    pub fn restart(&mut self, bytes: &[u8], count: u32)
        requires inside { count ≤ 8 * length bytes.now }
        requires room { count ≤ self.old.room }
        ensures bits { self.new.bits ≡ first_bits bytes.now count }
        ensures length { length self.new.bits ≡ count }
        ensures room { self.new.room ≡ self.old.room }
    {
        put_anew(&mut self.bytes, &bytes[..(count as usize + 7) / 8]);
        cut(&mut self.bytes, count);
        self.end = count;
    }

    /// How many bits are written.
    pub fn length(&self) -> u32
        ensures { result ≡ length self.now.bits }
    {
        self.end
    }

    /// The bytes that hold the bits. Zero bits fill the last byte.
    pub fn bytes(&self) -> &[u8]
        ensures packed { result.now ≡ packed self.now.bits }
        ensures few { 8 * length result.now < length self.now.bits + 8 }
    {
        packed_bytes(&self.bytes, self.end)
    }

    /// Writes the Elias gamma code of a number from 1 on: with k binary digits, 2k - 1 bits. There is room for 127 more, which no code exceeds.
    pub fn gamma(&mut self, n: u64)
        requires from_one { 1 ≤ n }
        requires room { length self.old.bits + 127 ≤ self.old.room }
        ensures bits { self.new.bits ≡ self.old.bits ++ gamma n }
        ensures few { length self.new.bits ≤ length self.old.bits + 127 }
        ensures room { self.new.room ≡ self.old.room }
    {
        let digits = 64 - n.leading_zeros();
        append_within(&mut self.bytes, self.end, digits - 1, n, digits);
        self.end += digits - 1 + digits;
    }

    /// Ends the writing: the bits that are written, in bytes.
    pub fn finish(self) -> Bits
        ensures { result ≡ self.bits }
    {
        Bits::new(BitWriter::of_filled(self.bytes, self.end))
    }
}
