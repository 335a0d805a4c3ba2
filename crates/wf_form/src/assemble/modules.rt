// Modules from their parts.
ghost use Rattle.std.specs.Prelude.{◌≡◌, IfOk, map};
ghost use Rattle.wf_form.specs.Forming.{module_of};

use std::alloc::{AllocError, Global};
use wf_model::{ModulePart, Name, Seq};
use wf_spec::Module;

fn copies(alloc: Global, names: &[Name]) -> Result<Seq<Name>, AllocError>
    ensures { IfOk result (λ ns. ns ≡ names.now) }
{
    let mut list = Vec::new(alloc);
    for name in names {
        let copy = Name::copied(alloc, name.bytes())?;
        list.push(copy)?;
    }
    Ok(Seq::from_vec(list))
}

fn module_from(alloc: Global, part: &ModulePart) -> Result<Module, AllocError>
    ensures { IfOk result (λ m. m ≡ module_of part.now) }
{
    let name = Name::copied(alloc, part.name.bytes())?;
    let inputs = copies(alloc, part.inputs.items())?;
    let outputs = copies(alloc, part.outputs.items())?;
    Ok(Module::new(name, inputs, outputs))
}

/// The modules of a specification. Cost: the copies of all names.
pub fn modules_from(alloc: Global, parts: &[ModulePart]) -> Result<Vec<Module>, AllocError>
    ensures { IfOk result (λ ms. ms.items ≡ map module_of parts.now) }
{
    let mut list = Vec::new(alloc);
    for part in parts {
        let made = module_from(alloc, part)?;
        list.push(made)?;
    }
    Ok(list)
}
