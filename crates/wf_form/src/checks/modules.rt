// The rules on modules by themselves, and on the numbers of modules and productions.
ghost use Rattle.std.specs.Prelude.{◌≡◌, ◌⊎◌, drop, take, IfErr, IfOk, OnOk};
ghost use Rattle.wf_spec.specs.FirstFaults.{each, AllHold, IsFirstFailing, IsFirstFault};
ghost use Rattle.wf_form.specs.Rules.{first_rules, module_names, HasFewPorts};
ghost use Rattle.wf_form.specs.declared.fault.FormFault.TheVariants.{NoMemory, TooManyPorts};

use crate::checks::different::first_port_twice;
use crate::checks::numbering::numbered_names;
use crate::checks::short::{first_bad_names, first_bad_positions};
use crate::fault::{FormFault, Spot};
use std::alloc::Global;
use wf_model::{ModulePart, Parts};
use wf_names::Names;

/// The first module with more than 64 inputs, or more than 64 outputs.
fn first_many_ports(modules: &[ModulePart]) -> Option<usize>
    ensures { IsFirstFailing (each modules.now HasFewPorts TooManyPorts) result }
{
    modules.iter().position(|m| m.inputs.items().len() > 64 || m.outputs.items().len() > 64)
}

/// The rules on names: each is of letters, and no module has the name of an earlier one.
fn check_names(alloc: Global, key: u64, parts: &Parts) -> Result<Names, FormFault>
    ensures names { IfOk result (λ names. names ≡ module_names parts.now.modules) }
    ensures kept { OnOk result (AllHold (take 3 (first_rules parts.now))) }
    ensures refused { IfErr result (λ f. (f ≡ NoMemory) ⊎ IsFirstFault (take 3 (first_rules parts.now)) f) }
{
    let modules = parts.modules.items();
    let productions = parts.productions.items();
    if let Some(k) = first_bad_names(modules) {
        return Err(FormFault::NameBad {
            at: Spot::Module(k as u64),
        });
    }
    if let Some(k) = first_bad_positions(productions) {
        return Err(FormFault::NameBad {
            at: Spot::Production(k as u64),
        });
    }
    numbered_names(alloc, key, modules)
}

/// The rules on ports, and on the numbers of modules and productions.
fn check_counts(alloc: Global, key: u64, parts: &Parts) -> Result<(), FormFault>
    ensures kept { OnOk result (AllHold (drop 3 (first_rules parts.now))) }
    ensures refused { IfErr result (λ f. (f ≡ NoMemory) ⊎ IsFirstFault (drop 3 (first_rules parts.now)) f) }
{
    let modules = parts.modules.items();
    if let Some(k) = first_port_twice(alloc, key, modules)? {
        return Err(FormFault::PortTwice { module: k as u64 });
    }
    if let Some(k) = first_many_ports(modules) {
        return Err(FormFault::TooManyPorts { module: k as u64 });
    }
    if modules.len() > 1024 {
        return Err(FormFault::TooManyModules);
    }
    if parts.productions.items().len() > 1024 {
        return Err(FormFault::TooManyProductions);
    }
    Ok(())
}

/// The names of the modules, numbered, in a table with this key, where the rules on modules by themselves and on the numbers of modules and productions hold.
///
/// Errors: the fault of the first rule that is broken, at the first place, of `NameBad`, `NameTwice`, `PortTwice`, `TooManyPorts`, `TooManyModules` and `TooManyProductions` in this order; `NoMemory` may come at any time.
///
/// Cost: one look at each byte of a name, and for each module and each port one look-up by hashing with the key and one copy of its name.
pub fn check_modules(alloc: Global, key: u64, parts: &Parts) -> Result<Names, FormFault>
    ensures names { IfOk result (λ names. names ≡ module_names parts.now.modules) }
    ensures kept { OnOk result (AllHold (first_rules parts.now)) }
    ensures refused { IfErr result (λ f. (f ≡ NoMemory) ⊎ IsFirstFault (first_rules parts.now) f) }
{
    let names = check_names(alloc, key, parts)?;
    check_counts(alloc, key, parts)?;
    Ok(names)
}
