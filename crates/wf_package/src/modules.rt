// The modules of a package.
ghost use Rattle.std.specs.Prelude.{◌≡◌, ◌<◌, ◌≤◌, ◌∷◌, [], ℕ, length, IfOk};
ghost use Rattle.wf_model.specs.Lists.{IsIn};
ghost use Rattle.wf_package.specs.Parts.{made_by_place, module_part};

use crate::names::{numbered, numbered_names};
use std::alloc::{AllocError, Global};
use wf_spec::{Grammar, ModNo, Module};

/// The module of a package for a module of the grammar: with as many ports, and named by its place.
fn placed_module(alloc: Global, g: &Grammar, k: u16, m: ModNo) -> Result<Module, AllocError>
    requires { m.0 < length g.now.core.modules }
    ensures { IfOk result (λ x. x ∷ [] ≡ module_part g.now.core k m.0) }
{
    let name = numbered(alloc, b'm', k)?;
    let inputs = numbered_names(alloc, b'i', u16::from(g.input_count(m)))?;
    let outputs = numbered_names(alloc, b'o', u16::from(g.output_count(m)))?;
    Ok(Module::new(name, inputs, outputs))
}

/// The modules of a package, in order of these of the grammar. Fails only for want of memory.
pub(crate) fn placed_modules(
    alloc: Global,
    g: &Grammar,
    numbers: &[u16],
) -> Result<Vec<Module>, AllocError>
    requires in_range { (m : ℕ) → IsIn m numbers.now → m < length g.now.core.modules }
    requires few { length numbers.now ≤ 1024 }
    ensures { IfOk result (λ list. list.items ≡ made_by_place (module_part g.now.core) 0 numbers.now) }
{
    let mut list = Vec::with_capacity(alloc, numbers.len())?;
    for k in 0..numbers.len() {
        let module = placed_module(alloc, g, k as u16, ModNo(numbers[k]))?;
        list.push(module)?;
    }
    Ok(list)
}
