// Reading the parts of an automaton.
ghost use Rattle.std.specs.Prelude.{◌≡◌, ◌⊎◌, IfOk, IfErr};
ghost use Rattle.serde_json.specs.View.{view};
ghost use Rattle.wf_spec.specs.FirstFaults.{IsFirstFault};
ghost use Rattle.wf_automaton.specs.Forms.{SaysParts, IsAutoText, IsShapeFault, form_rules};
ghost use Rattle.wf_automaton.specs.declared.fault.AutoFault.TheVariants.{NoMemory};

use crate::fault::{AutoFault, AutoMember};
use crate::parts::{AutoParts, MovePart};
use serde_json::Value;
use std::alloc::Global;
use wf_json::{TextFault, member, member_list, read_value};

/// Reads the parts of an automaton from a JSON text.
///
/// Further members are ignored. Of a member that is given twice the last counts, and one that is null is there and has not its form.
///
/// Errors: NotJson where the bytes are not UTF-8 or no JSON value of at most 127 levels; WrongShape with the first of top, `states`, `start`, `accept` and `moves` that has not its form; NoMemory where memory was refused.
///
/// Cost: one reading of the text by `serde_json`, and one pass over the value.
pub fn read_parts(alloc: Global, bytes: &[u8]) -> Result<AutoParts, AutoFault>
    ensures ok { IfOk result (IsAutoText bytes.now) }
    ensures refused { IfErr result (λ f. (f ≡ NoMemory) ⊎ IsShapeFault bytes.now f) }
{
    match read_value(alloc, bytes) {
        Ok(value) => parts_in(alloc, &value),
        Err(TextFault::NotJson) => Err(AutoFault::NotJson),
        Err(TextFault::NoMemory) => Err(AutoFault::NoMemory),
    }
}

/// Reads the parts of an automaton from a value.
fn parts_in(alloc: Global, value: &Value) -> Result<AutoParts, AutoFault>
    ensures ok { IfOk result (SaysParts (view value.now)) }
    ensures refused { IfErr result (λ f. (f ≡ NoMemory) ⊎ IsFirstFault (form_rules (view value.now)) f) }
{
    if !value.is_object() {
        return Err(AutoFault::WrongShape {
            member: AutoMember::Top,
        });
    }
    let Some(states) = member::<u64>(alloc, value, "states")? else {
        return Err(AutoFault::WrongShape {
            member: AutoMember::States,
        });
    };
    let Some(start) = member::<u64>(alloc, value, "start")? else {
        return Err(AutoFault::WrongShape {
            member: AutoMember::Start,
        });
    };
    let Some(accept) = member_list::<u64>(alloc, value, "accept")? else {
        return Err(AutoFault::WrongShape {
            member: AutoMember::Accept,
        });
    };
    let Some(moves) = member_list::<MovePart>(alloc, value, "moves")? else {
        return Err(AutoFault::WrongShape {
            member: AutoMember::Moves,
        });
    };
    Ok(AutoParts {
        states,
        start,
        accept,
        moves,
    })
}
