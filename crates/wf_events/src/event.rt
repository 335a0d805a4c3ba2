// Reading an event.
ghost use Rattle.std.specs.Prelude.{◌≡◌, Some, IfOk, IfErr};
ghost use Rattle.serde_json.specs.Data.{Data};
ghost use Rattle.serde_json.specs.View.{view};
ghost use Rattle.wf_json.specs.Reading.{IsReading};
ghost use Rattle.wf_events.specs.EventForm.{event_of, start_form, expand_form, IsRefusal, IsToldAs};

use crate::fault::EventFault;
use crate::scan::scan_event;
use serde_json::Value;
use std::alloc::Global;
use wf_json::{FromJson, TextFault, member, read_value};
use wf_model::{Event, Name, Seq};

/// Reads an event from a line, which is one JSON value.
///
/// The value has exactly one of `start` and `expand`, whatever stands in it. Further members are ignored. Of a member that is given twice the last counts.
///
/// Errors: NotJson where the bytes are not UTF-8 or no JSON value of at most 127 levels; WrongShape where the value has not the form of an event; NoMemory where memory was refused.
///
/// Cost: one pass over a line that is spelled as `write_event` spells it. For any other line, one reading by `serde_json` and one pass over the value besides.
pub fn read_event(alloc: Global, line: &[u8]) -> Result<Event, EventFault>
    ensures ok { IfOk result (λ e. (d : Data) × IsReading line.now d × (event_of d ≡ Some e)) }
    ensures refused { IfErr result (λ f. IsRefusal line.now f) }
{
    let Some(event) = scan_event(alloc, line)? else {
        return parse_event(alloc, line);
    };
    Ok(event)
}

/// Reads an event from a line in any spelling.
fn parse_event(alloc: Global, line: &[u8]) -> Result<Event, EventFault>
    ensures ok { IfOk result (λ e. (d : Data) × IsReading line.now d × (event_of d ≡ Some e)) }
    ensures refused { IfErr result (λ f. IsRefusal line.now f) }
{
    match read_value(alloc, line) {
        Ok(value) => event_in(alloc, &value),
        Err(TextFault::NotJson) => Err(EventFault::NotJson),
        Err(TextFault::NoMemory) => Err(EventFault::NoMemory),
    }
}

/// Reads an event from a value.
fn event_in(alloc: Global, value: &Value) -> Result<Event, EventFault>
    ensures { IsToldAs (event_of (view value.now)) result }
{
    match (value.get("start"), value.get("expand")) {
        (Some(name), None) => start(alloc, name),
        (None, Some(instance)) => expand(alloc, instance, value),
        _ => Err(EventFault::WrongShape),
    }
}

/// A start event, by what stands in `start`.
fn start(alloc: Global, name: &Value) -> Result<Event, EventFault>
    ensures { IsToldAs (start_form (view name.now)) result }
{
    let Some(name) = Name::from_json(alloc, name)? else {
        return Err(EventFault::WrongShape);
    };
    Ok(Event::Start { name })
}

/// An expand event, by what stands in `expand` and by the value.
fn expand(alloc: Global, instance: &Value, value: &Value) -> Result<Event, EventFault>
    ensures { IsToldAs (expand_form (view instance.now) (view value.now)) result }
{
    let Some(instance) = Name::from_json(alloc, instance)? else {
        return Err(EventFault::WrongShape);
    };
    let Some(production) = member::<u64>(alloc, value, "production")? else {
        return Err(EventFault::WrongShape);
    };
    let Some(names) = member::<Seq<Name>>(alloc, value, "names")? else {
        return Err(EventFault::WrongShape);
    };
    Ok(Event::Expand {
        instance,
        production,
        names,
    })
}
