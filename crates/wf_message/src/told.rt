// The texts of refusals, put piece by piece.
ghost use Rattle.std.specs.Prelude.{◌++◌, codes, decimal};
ghost use Rattle.wf_message.specs.Puts.{Puts};
ghost use Rattle.wf_message.specs.Refusals.{refusal_text};

use crate::pieces::{put, put_numbered, put_two};
use crate::refusal::Refusal;
use wf_io::{Failed, Sink};

fn put_worded<E: Sink>(err: &mut E, name: &[u8], word: &[u8]) -> Result<(), Failed>
    ensures { Puts E.put_bytes E.faults E.at_last (name.now ++ (codes " " ++ word.now)) err.old err.new result }
{
    put(err, name)?;
    put_two(err, b" ", word)
}

fn put_part<E: Sink>(err: &mut E, part: &[u8], number: u64) -> Result<(), Failed>
    ensures { Puts E.put_bytes E.faults E.at_last (part.now ++ (codes " " ++ decimal number)) err.old err.new result }
{
    put(err, part)?;
    put_numbered(err, b" ", number)
}

fn put_of_part<E: Sink>(err: &mut E, name: &[u8], part: &[u8], number: u64) -> Result<(), Failed>
    ensures { Puts E.put_bytes E.faults E.at_last (name.now ++ (codes " " ++ (part.now ++ (codes " " ++ decimal number)))) err.old err.new result }
{
    put(err, name)?;
    put(err, b" ")?;
    put_part(err, part, number)
}

/// Puts the text of a refusal. It needs no memory.
pub fn put_refusal<E: Sink>(err: &mut E, refusal: &Refusal) -> Result<(), Failed>
    ensures { Puts E.put_bytes E.faults E.at_last (refusal_text refusal.now) err.old err.new result }
{
    match refusal {
        Refusal::Named { name } => put(err, name),
        Refusal::Worded { name, word } => put_worded(err, name, word),
        Refusal::Numbered { name, part, number } => put_of_part(err, name, part, *number),
        Refusal::Written { text } => put(err, text),
    }
}
