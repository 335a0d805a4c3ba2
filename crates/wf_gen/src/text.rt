// The lines of generated events, written from their numbers.
ghost use Rattle.std.specs.Prelude.{◌≡◌, ◌<◌, ◌≤◌, ◌+◌, ◌^◌, ◌++◌, codes, decimal, flat_map, length, take, OnOk, OnErr};
ghost use Rattle.std.specs.List.{join_by};
ghost use Rattle.wf_model.specs.declared.event.Event.TheVariants.{Start, Expand};
ghost use Rattle.wf_json.specs.Canonical.{text_in_quotes};
ghost use Rattle.numbered_names.specs.Names.{numbered_name, numbered_names};
ghost use Rattle.wf_gen.specs.Lines.{event_line};

use crate::choice::Turn;
use itoa::Buffer;
use std::alloc::AllocError;
use wf_events::append_part;

/// Appends the line of the start event. After an error all from a place on is gone.
pub(crate) fn append_start(begun: usize, to: &mut Vec<u8>) -> Result<(), AllocError>
    requires { begun ≤ length to.old.items }
    ensures ok { OnOk result (to.new.items ≡ to.old.items ++ event_line (Start (numbered_name 0))) }
    ensures err { OnErr result (to.new.items ≡ take begun to.old.items) }
{
    append_part(b"{\"start\":\"n0\"}\n", begun, to)
}

/// Appends the line of the event of a turn: the children are numbered from `first` on. After an error all from a place on is gone.
pub(crate) fn append_expand(
    turn: Turn,
    first: u32,
    count: usize,
    begun: usize,
    to: &mut Vec<u8>,
) -> Result<(), AllocError>
    requires numbers { first + count < 2 ^ 32 }
    requires begun { begun ≤ length to.old.items }
    ensures ok { OnOk result (to.new.items ≡ to.old.items
        ++ event_line (Expand (numbered_name turn.instance.number) turn.production.0 (numbered_names first count))) }
    ensures err { OnErr result (to.new.items ≡ take begun to.old.items) }
{
    append_part(b"{\"expand\":", begun, to)?;
    append_quoted(turn.instance.number, begun, to)?;
    append_part(b",\"production\":", begun, to)?;
    append_number(u32::from(turn.production.0), begun, to)?;
    append_part(b",\"names\":[", begun, to)?;
    append_names(first, count, begun, to)?;
    append_part(b"]}\n", begun, to)
}

/// Appends the names of so many instances, from a number on, in quotes, with commas between. After an error all from a place on is gone.
fn append_names(first: u32, count: usize, begun: usize, to: &mut Vec<u8>) -> Result<(), AllocError>
    requires numbers { first + count < 2 ^ 32 }
    requires begun { begun ≤ length to.old.items }
    ensures ok { OnOk result (to.new.items ≡ to.old.items ++ join_by text_in_quotes (codes ",") (numbered_names first count)) }
    ensures err { OnErr result (to.new.items ≡ take begun to.old.items) }
{
    if count == 0 {
        return Ok(());
    }
    append_quoted(first, begun, to)?;
    append_others(first + 1, count - 1, begun, to)
}

/// Appends the names of so many instances, from a number on, in quotes, each behind a comma. After an error all from a place on is gone.
fn append_others(first: u32, count: usize, begun: usize, to: &mut Vec<u8>) -> Result<(), AllocError>
    requires numbers { first + count < 2 ^ 32 }
    requires begun { begun ≤ length to.old.items }
    ensures ok { OnOk result (to.new.items ≡ to.old.items ++ flat_map (λ n. codes "," ++ text_in_quotes n) (numbered_names first count)) }
    ensures err { OnErr result (to.new.items ≡ take begun to.old.items) }
{
    for k in 0..count {
        append_other(first + k as u32, begun, to)?;
    }
    Ok(())
}

/// Appends a comma and the name of an instance in quotes. After an error all from a place on is gone.
fn append_other(number: u32, begun: usize, to: &mut Vec<u8>) -> Result<(), AllocError>
    requires { begun ≤ length to.old.items }
    ensures ok { OnOk result (to.new.items ≡ to.old.items ++ (codes "," ++ text_in_quotes (numbered_name number))) }
    ensures err { OnErr result (to.new.items ≡ take begun to.old.items) }
{
    append_part(b",\"n", begun, to)?;
    append_number(number, begun, to)?;
    append_part(b"\"", begun, to)
}

/// Appends the name of an instance in quotes. After an error all from a place on is gone.
fn append_quoted(number: u32, begun: usize, to: &mut Vec<u8>) -> Result<(), AllocError>
    requires { begun ≤ length to.old.items }
    ensures ok { OnOk result (to.new.items ≡ to.old.items ++ text_in_quotes (numbered_name number)) }
    ensures err { OnErr result (to.new.items ≡ take begun to.old.items) }
{
    append_part(b"\"n", begun, to)?;
    append_number(number, begun, to)?;
    append_part(b"\"", begun, to)
}

/// Appends a number in decimal digits. After an error all from a place on is gone.
fn append_number(number: u32, begun: usize, to: &mut Vec<u8>) -> Result<(), AllocError>
    requires { begun ≤ length to.old.items }
    ensures ok { OnOk result (to.new.items ≡ to.old.items ++ decimal number) }
    ensures err { OnErr result (to.new.items ≡ take begun to.old.items) }
{
    let mut digits = Buffer::new();
    append_part(digits.format(number).as_bytes(), begun, to)
}
