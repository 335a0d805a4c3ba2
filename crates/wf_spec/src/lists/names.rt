// The names of modules, in a table.
ghost use Rattle.std.specs.Prelude.{◌≡◌, IfOk};
ghost use Rattle.wf_model.specs.Lists.{AllDiffer};
ghost use Rattle.wf_spec.specs.Naming.{names_of};

use crate::module::Module;
use std::alloc::{AllocError, Global};
use wf_names::Names;

/// The names of modules, numbered, in a table with this key.
pub fn name_table(alloc: Global, key: u64, modules: &[Module]) -> Result<Names, AllocError>
    requires { AllDiffer (names_of modules.now) }
    ensures { IfOk result (λ names. names ≡ names_of modules.now) }
{
    let mut names = Names::with_key(alloc, key);
    for one in modules {
        names.add(one.name())?;
    }
    Ok(names)
}
