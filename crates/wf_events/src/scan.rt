// Reading a line that is spelled exactly as `write_event` spells events.
ghost use Rattle.std.specs.Prelude.{◌≡◌, ◌<◌, ◌^◌, ◌++◌, ◌∷◌, [], true, codes, decimal, IfOk, IfSome, OnOk};
ghost use Rattle.std.specs.List.{join_by, list_all};
ghost use Rattle.wf_json.specs.Canonical.{text_in_quotes};
ghost use Rattle.wf_events.specs.Plain.{is_plain_text, IsTextOf};

use crate::number::cut_number;
use crate::text::{behind, cut_text};
use std::alloc::{AllocError, Global};
use wf_model::{Event, Name, Seq};

/// Reads the event of which the line is the text, spelled exactly as `write_event` spells it; None where the line is spelled otherwise.
///
/// The only error is that memory is refused. Takes memory for the names and for their list alone. Cost: one pass over the line.
pub(crate) fn scan_event(alloc: Global, line: &[u8]) -> Result<Option<Event>, AllocError>
    ensures { IfOk result (λ o. IfSome o (IsTextOf line.now)) }
{
    if let Some(rest) = behind(line, b"{\"expand\":\"") {
        return scan_expand(alloc, rest);
    }
    if let Some(rest) = behind(line, b"{\"start\":\"") {
        return scan_start(alloc, rest);
    }
    Ok(None)
}

/// Reads a start event from the name on.
fn scan_start(alloc: Global, bytes: &[u8]) -> Result<Option<Event>, AllocError>
    ensures { IfOk result (λ o. IfSome o (IsTextOf (codes "{\"start\":\"" ++ bytes.now))) }
{
    let Some((name, rest)) = cut_text(bytes) else {
        return Ok(None);
    };
    if rest != b"}".as_slice() {
        return Ok(None);
    }
    let name = Name::copied(alloc, name)?;
    Ok(Some(Event::Start { name }))
}

/// Reads an expand event from the name of the instance on.
fn scan_expand(alloc: Global, bytes: &[u8]) -> Result<Option<Event>, AllocError>
    ensures { IfOk result (λ o. IfSome o (IsTextOf (codes "{\"expand\":\"" ++ bytes.now))) }
{
    let Some(front) = cut_front(bytes) else {
        return Ok(None);
    };
    let (names, rest) = cut_names(alloc, front.rest)?;
    if rest != b"]}".as_slice() {
        return Ok(None);
    }
    let instance = Name::copied(alloc, front.instance)?;
    Ok(Some(Event::Expand {
        instance,
        production: front.production,
        names: Seq::from_vec(names),
    }))
}

/// What stands before the names of an expand event, and the bytes behind the opening bracket.
#[derive(Clone, Copy)]
struct Front<'a> {
    instance: &'a [u8],
    production: u64,
    rest: &'a [u8],
}

/// Cuts what stands before the names, from the name of the instance on.
fn cut_front(bytes: &[u8]) -> Option<Front<'_>>
    ensures whole { IfSome result (λ f. bytes.now ≡ f.instance.now ++
        (codes "\",\"production\":" ++ (decimal f.production ++ (codes ",\"names\":[" ++ f.rest.now)))) }
    ensures plain { IfSome result (λ f. is_plain_text f.instance.now ≡ true) }
    ensures fits { IfSome result (λ f. f.production < 2 ^ 64) }
{
    let (instance, number) = cut_text(bytes)?;
    let (production, names) = cut_number(behind(number, b",\"production\":")?)?;
    let rest = behind(names, b",\"names\":[")?;
    Some(Front {
        instance,
        production,
        rest,
    })
}

/// The names that stand in quotes at the front, with commas between, and the bytes behind them.
fn cut_names(alloc: Global, bytes: &[u8]) -> Result<(Vec<Name>, &[u8]), AllocError>
    ensures whole { IfOk result (λ p. bytes.now ≡ join_by text_in_quotes (codes ",") p.0.items ++ p.1.now) }
    ensures plain { IfOk result (λ p. list_all is_plain_text p.0.items ≡ true) }
{
    let mut names = Vec::new(alloc);
    let Some((first, others)) = first_text(bytes) else {
        return Ok((names, bytes));
    };
    add_name(alloc, first, &mut names)?;
    let mut left = others;
    while let Some((name, rest)) = next_text(left) {
        add_name(alloc, name, &mut names)?;
        left = rest;
    }
    Ok((names, left))
}

/// The text in quotes at the front, and the bytes behind it.
fn first_text(bytes: &[u8]) -> Option<(&[u8], &[u8])>
    ensures whole { IfSome result (λ p. bytes.now ≡ codes "\"" ++ (p.0.now ++ 34 ∷ p.1.now)) }
    ensures plain { IfSome result (λ p. is_plain_text p.0.now ≡ true) }
{
    cut_text(behind(bytes, b"\"")?)
}

/// The text in quotes behind a comma at the front, and the bytes behind it.
fn next_text(bytes: &[u8]) -> Option<(&[u8], &[u8])>
    ensures whole { IfSome result (λ p. bytes.now ≡ codes ",\"" ++ (p.0.now ++ 34 ∷ p.1.now)) }
    ensures plain { IfSome result (λ p. is_plain_text p.0.now ≡ true) }
{
    cut_text(behind(bytes, b",\"")?)
}

/// Adds a name of these bytes at the end.
fn add_name(alloc: Global, bytes: &[u8], names: &mut Vec<Name>) -> Result<(), AllocError>
    ensures { OnOk result (names.new.items ≡ names.old.items ++ bytes.now ∷ []) }
{
    let name = Name::copied(alloc, bytes)?;
    names.push(name)?;
    Ok(())
}
