// The numbers of the names of modules.
ghost use Rattle.std.specs.Prelude.{◌≡◌, ◌⊎◌, [], ◌∷◌, IfOk, IfErr, OnOk};
ghost use Rattle.wf_form.specs.Rules.{module_names, new_names};
ghost use Rattle.wf_spec.specs.FirstFaults.{HoldsThroughout, IsFirstFault};
ghost use Rattle.wf_form.specs.declared.fault.FormFault.TheVariants.{NoMemory};

use crate::fault::FormFault;
use std::alloc::Global;
use wf_model::ModulePart;
use wf_names::Names;

/// The names of modules, numbered, in a table with this key. NameTwice at the first that an earlier module has.
///
/// Cost: for each module up to there one look-up and one copy of its name.
pub fn numbered_names(alloc: Global, key: u64, modules: &[ModulePart]) -> Result<Names, FormFault>
    ensures names { IfOk result (λ names. names ≡ module_names modules.now) }
    ensures kept { OnOk result (HoldsThroughout (new_names modules.now)) }
    ensures refused { IfErr result (λ f. (f ≡ NoMemory) ⊎ IsFirstFault (new_names modules.now ∷ []) f) }
{
    let mut names = Names::with_key(alloc, key);
    for (k, one) in modules.iter().enumerate() {
        let name = one.name.bytes();
        if names.holds(name) {
            return Err(FormFault::NameTwice { module: k as u64 });
        }
        names.add(name)?;
    }
    Ok(names)
}
