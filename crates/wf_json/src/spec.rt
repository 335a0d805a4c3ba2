// Reading a specification.
ghost use Rattle.std.specs.Prelude.{◌≡◌, IfOk, IfErr};
ghost use Rattle.serde_json.specs.Data.{Data};
ghost use Rattle.serde_json.specs.View.{view};
ghost use Rattle.wf_json.specs.Reading.{IsReading};
ghost use Rattle.wf_json.specs.SpecForm.{spec_of, IsRefusal, IsToldBy};
ghost use Rattle.wf_json.specs.SpecRest.{spec_from_deps};
ghost use Rattle.wf_json.specs.Telling.{IsSaidBy};

use crate::fault::{JsonFault, Member};
use crate::form::{member, member_list, take_list, take_member_list};
use crate::reading::{TextFault, read_value};
use serde_json::Value;
use std::alloc::Global;
use wf_model::{DepsPart, ModulePart, Name, Parts, ProdPart, Seq, VersionPart};

/// Reads a specification from a JSON text.
///
/// Names may hold any bytes. Further members are ignored. Of a member that is given twice the last counts, and one that is null is there and has not its form.
///
/// Errors: NotJson where the bytes are not UTF-8 or no JSON value of at most 127 levels; WrongShape with the first of top, `start`, `modules`, `productions`, `deps` and `versions` that has not its form; NoMemory where memory was refused.
///
/// Cost: one reading of the text by `serde_json`, and one pass over the value. Each module, production and list of pairs is let go in the value as soon as it is read.
pub fn read_spec(alloc: Global, bytes: &[u8]) -> Result<Parts, JsonFault>
    ensures ok { IfOk result (λ p. (d : Data) × IsReading bytes.now d × (spec_of d ≡ Ok p)) }
    ensures refused { IfErr result (λ f. IsRefusal bytes.now f) }
{
    match read_value(alloc, bytes) {
        Ok(mut value) => spec_in(alloc, &mut value),
        Err(TextFault::NotJson) => Err(JsonFault::NotJson),
        Err(TextFault::NoMemory) => Err(JsonFault::NoMemory),
    }
}

/// Reads a specification from a value, and takes its long lists out.
fn spec_in(alloc: Global, value: &mut Value) -> Result<Parts, JsonFault>
    ensures { IsToldBy (view value.old) result }
{
    if !value.is_object() {
        return Err(JsonFault::WrongShape {
            member: Member::Top,
        });
    }
    let Some(start) = member::<Name>(alloc, value, "start")? else {
        return Err(JsonFault::WrongShape {
            member: Member::Start,
        });
    };
    let Some(modules) = take_list::<ModulePart>(alloc, value, "modules")? else {
        return Err(JsonFault::WrongShape {
            member: Member::Modules,
        });
    };
    let Some(productions) = take_member_list::<ProdPart>(alloc, value, "productions")? else {
        return Err(JsonFault::WrongShape {
            member: Member::Productions,
        });
    };
    spec_with(alloc, value, start, modules, productions)
}

/// Reads the other members of a specification with this start module, these modules and these productions.
fn spec_with(
    alloc: Global,
    value: &mut Value,
    start: Name,
    modules: Seq<ModulePart>,
    productions: Seq<ProdPart>,
) -> Result<Parts, JsonFault>
    ensures { IsSaidBy (spec_from_deps start modules productions) (view value.old) result }
{
    let Some(deps) = take_member_list::<DepsPart>(alloc, value, "deps")? else {
        return Err(JsonFault::WrongShape {
            member: Member::DepsList,
        });
    };
    let Some(versions) = member_list::<VersionPart>(alloc, value, "versions")? else {
        return Err(JsonFault::WrongShape {
            member: Member::Versions,
        });
    };
    Ok(Parts {
        start,
        modules,
        productions,
        deps,
        versions,
    })
}
