// Writing an event.
ghost use Rattle.std.specs.Prelude.{◌≡◌, ◌≤◌, ◌++◌, codes, decimal, flat_map, length, take, OnOk, OnErr};
ghost use Rattle.std.specs.List.{join_by};
ghost use Rattle.wf_model.specs.declared.event.Event.TheVariants.{Start, Expand};
ghost use Rattle.wf_json.specs.Canonical.{text_in_quotes, list_of};
ghost use Rattle.wf_events.specs.Spelling.{event_text};

use itoa::Buffer;
use std::alloc::AllocError;
use wf_model::{Event, Name};

/// Appends the text of an event: one line of JSON without spaces, and without its newline.
///
/// Names are written as they are. If they are names, `read_event` reads the text as this event.
///
/// The only error is that memory is refused, and then nothing is appended. Cost: linear in the text.
pub fn write_event(event: &Event, to: &mut Vec<u8>) -> Result<(), AllocError>
    ensures ok { OnOk result (to.new.items ≡ to.old.items ++ event_text event.now) }
    ensures err { OnErr result (to.new.items ≡ to.old.items) }
{
    let begun = to.len();
    match event {
        Event::Start { name } => append_start(name.bytes(), begun, to),
        Event::Expand {
            instance,
            production,
            names,
        } => append_expand(instance.bytes(), *production, names.items(), begun, to),
    }
}

/// Appends the text of a start event. After an error all from a place on is gone.
fn append_start(name: &[u8], begun: usize, to: &mut Vec<u8>) -> Result<(), AllocError>
    requires { begun ≤ length to.old.items }
    ensures ok { OnOk result (to.new.items ≡ to.old.items ++ event_text (Start name.now)) }
    ensures err { OnErr result (to.new.items ≡ take begun to.old.items) }
{
    append_part(b"{\"start\":", begun, to)?;
    append_quoted(name, begun, to)?;
    append_part(b"}", begun, to)
}

/// Appends the text of an expand event. After an error all from a place on is gone.
fn append_expand(
    instance: &[u8],
    production: u64,
    names: &[Name],
    begun: usize,
    to: &mut Vec<u8>,
) -> Result<(), AllocError>
    requires { begun ≤ length to.old.items }
    ensures ok { OnOk result (to.new.items ≡ to.old.items ++ event_text (Expand instance.now production names.now)) }
    ensures err { OnErr result (to.new.items ≡ take begun to.old.items) }
{
    let mut digits = Buffer::new();
    append_part(b"{\"expand\":", begun, to)?;
    append_quoted(instance, begun, to)?;
    append_part(b",\"production\":", begun, to)?;
    append_part(digits.format(production).as_bytes(), begun, to)?;
    append_part(b",\"names\":", begun, to)?;
    append_list(names, begun, to)?;
    append_part(b"}", begun, to)
}

/// Appends names as a list. After an error all from a place on is gone.
fn append_list(names: &[Name], begun: usize, to: &mut Vec<u8>) -> Result<(), AllocError>
    requires { begun ≤ length to.old.items }
    ensures ok { OnOk result (to.new.items ≡ to.old.items ++ list_of text_in_quotes names.now) }
    ensures err { OnErr result (to.new.items ≡ take begun to.old.items) }
{
    append_part(b"[", begun, to)?;
    append_names(names, begun, to)?;
    append_part(b"]", begun, to)
}

/// Appends names in quotes, with commas between. After an error all from a place on is gone.
fn append_names(names: &[Name], begun: usize, to: &mut Vec<u8>) -> Result<(), AllocError>
    requires { begun ≤ length to.old.items }
    ensures ok { OnOk result (to.new.items ≡ to.old.items ++ join_by text_in_quotes (codes ",") names.now) }
    ensures err { OnErr result (to.new.items ≡ take begun to.old.items) }
{
    let [first, others @ ..] = names else {
        return Ok(());
    };
    append_quoted(first.bytes(), begun, to)?;
    append_others(others, begun, to)
}

/// Appends names in quotes, each behind a comma. After an error all from a place on is gone.
fn append_others(names: &[Name], begun: usize, to: &mut Vec<u8>) -> Result<(), AllocError>
    requires { begun ≤ length to.old.items }
    ensures ok { OnOk result (to.new.items ≡ to.old.items ++ flat_map (λ n. codes "," ++ text_in_quotes n) names.now) }
    ensures err { OnErr result (to.new.items ≡ take begun to.old.items) }
{
    for name in names {
        append_other(name.bytes(), begun, to)?;
    }
    Ok(())
}

/// Appends a comma and a text in quotes. After an error all from a place on is gone.
fn append_other(text: &[u8], begun: usize, to: &mut Vec<u8>) -> Result<(), AllocError>
    requires { begun ≤ length to.old.items }
    ensures ok { OnOk result (to.new.items ≡ to.old.items ++ (codes "," ++ text_in_quotes text.now)) }
    ensures err { OnErr result (to.new.items ≡ take begun to.old.items) }
{
    append_part(b",", begun, to)?;
    append_quoted(text, begun, to)
}

/// Appends a text in quotes. After an error all from a place on is gone.
fn append_quoted(text: &[u8], begun: usize, to: &mut Vec<u8>) -> Result<(), AllocError>
    requires { begun ≤ length to.old.items }
    ensures ok { OnOk result (to.new.items ≡ to.old.items ++ text_in_quotes text.now) }
    ensures err { OnErr result (to.new.items ≡ take begun to.old.items) }
{
    append_part(b"\"", begun, to)?;
    append_part(text, begun, to)?;
    append_part(b"\"", begun, to)
}

/// Appends a part of a text that began at a place. After an error all from this place on is gone.
///
/// The only error is that memory is refused.
pub fn append_part(part: &[u8], begun: usize, to: &mut Vec<u8>) -> Result<(), AllocError>
    requires { begun ≤ length to.old.items }
    ensures ok { OnOk result (to.new.items ≡ to.old.items ++ part.now) }
    ensures err { OnErr result (to.new.items ≡ take begun to.old.items) }
{
    if let Err(fault) = to.extend_from_slice(part) {
        to.truncate(begun);
        return Err(fault);
    }
    Ok(())
}
