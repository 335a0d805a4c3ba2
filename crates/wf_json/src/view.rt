// Reading a view.
ghost use Rattle.std.specs.Prelude.{◌≡◌, IfOk, IfErr};
ghost use Rattle.serde_json.specs.Data.{Data};
ghost use Rattle.serde_json.specs.View.{view};
ghost use Rattle.wf_json.specs.Reading.{IsReading};
ghost use Rattle.wf_json.specs.ViewForm.{view_of, IsRefusal, IsToldBy};

use crate::fault::{JsonFault, Member};
use crate::form::{optional, take_member_list};
use crate::reading::{TextFault, read_value};
use serde_json::Value;
use std::alloc::Global;
use wf_model::{DepsPart, Name, Seq, ViewParts};

/// Reads a view from a JSON text.
///
/// Names may hold any bytes. Further members are ignored. Of a member that is given twice the last counts, and one that is null is there and has not its form. Without `expand` every composite module is expanded.
///
/// Errors: NotJson where the bytes are not UTF-8 or no JSON value of at most 127 levels; WrongShape with the first of top, `expand` and `deps` that has not its form; NoMemory where memory was refused.
///
/// Cost: one reading of the text by `serde_json`, and one pass over the value. Each list of pairs is let go in the value as soon as it is read.
pub fn read_view(alloc: Global, bytes: &[u8]) -> Result<ViewParts, JsonFault>
    ensures ok { IfOk result (λ p. (d : Data) × IsReading bytes.now d × (view_of d ≡ Ok p)) }
    ensures refused { IfErr result (λ f. IsRefusal bytes.now f) }
{
    match read_value(alloc, bytes) {
        Ok(mut value) => view_in(alloc, &mut value),
        Err(TextFault::NotJson) => Err(JsonFault::NotJson),
        Err(TextFault::NoMemory) => Err(JsonFault::NoMemory),
    }
}

/// Reads a view from a value, and takes its given pairs out.
fn view_in(alloc: Global, value: &mut Value) -> Result<ViewParts, JsonFault>
    ensures { IsToldBy (view value.old) result }
{
    if !value.is_object() {
        return Err(JsonFault::WrongShape {
            member: Member::Top,
        });
    }
    let Some(expand) = optional::<Seq<Name>>(alloc, value, "expand")? else {
        return Err(JsonFault::WrongShape {
            member: Member::Expand,
        });
    };
    let Some(deps) = take_member_list::<DepsPart>(alloc, value, "deps")? else {
        return Err(JsonFault::WrongShape {
            member: Member::DepsList,
        });
    };
    Ok(ViewParts { expand, deps })
}
