// Lifted modules.
ghost use Rattle.std.specs.Prelude.{◌≡◌, ◌≤◌, IfOk, length, map};
ghost use Rattle.wf_model.specs.Lists.{IsIn};
ghost use Rattle.wf_model.specs.Grammar.{Module as SeenModule};
ghost use Rattle.words_model.specs.Lifting.{lift_module};

use crate::names::lifted_names;
use std::alloc::{AllocError, Global};
use wf_spec::{Module, Name};

/// A module with its ports in each state.
fn lift_module(alloc: Global, one: &Module, states: u8) -> Result<Module, AllocError>
    requires inputs { length one.now.inputs ≤ 64 }
    requires outputs { length one.now.outputs ≤ 64 }
    ensures { IfOk result (λ m. m ≡ lift_module states one.now) }
{
    let name = Name::copied(alloc, one.name())?;
    let inputs = lifted_names(alloc, b'i', one.inputs().len() as u8, states)?;
    let outputs = lifted_names(alloc, b'o', one.outputs().len() as u8, states)?;
    Ok(Module::new(name, inputs, outputs))
}

/// Modules with their ports in each state.
pub fn lift_modules(
    alloc: Global,
    modules: &[Module],
    states: u8,
) -> Result<Vec<Module>, AllocError>
    requires { (m : SeenModule) → IsIn m modules.now → (length m.inputs ≤ 64) × (length m.outputs ≤ 64) }
    ensures { IfOk result (λ list. list.items ≡ map (lift_module states) modules.now) }
{
    let mut list = Vec::new(alloc);
    for one in modules {
        let lifted = lift_module(alloc, one, states)?;
        list.push(lifted)?;
    }
    Ok(list)
}
