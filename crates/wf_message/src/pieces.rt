// Pieces of text for a sink, one after the other, and none after one that failed. No call needs memory.
ghost use Rattle.std.specs.Prelude.{◌++◌, decimal};
ghost use Rattle.wf_message.specs.Puts.{Puts};

use itoa::Buffer;
use wf_io::{Failed, Sink};

/// Puts a piece.
pub fn put<E: Sink>(err: &mut E, piece: &[u8]) -> Result<(), Failed>
    ensures { Puts E.put_bytes E.faults E.at_last piece.now err.old err.new result }
{
    err.put(piece)
}

/// Puts two pieces.
pub fn put_two<E: Sink>(err: &mut E, first: &[u8], second: &[u8]) -> Result<(), Failed>
    ensures { Puts E.put_bytes E.faults E.at_last (first.now ++ second.now) err.old err.new result }
{
    put(err, first)?;
    put(err, second)
}

/// Puts a piece and the decimal digits of a number.
pub fn put_numbered<E: Sink>(err: &mut E, piece: &[u8], number: u64) -> Result<(), Failed>
    ensures { Puts E.put_bytes E.faults E.at_last (piece.now ++ decimal number) err.old err.new result }
{
    let mut digits = Buffer::new();
    put_two(err, piece, digits.format(number).as_bytes())
}
