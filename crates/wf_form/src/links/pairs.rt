// The pairs that deps parts name.
ghost use Rattle.std.specs.Prelude.{◌≡◌, ◌≤◌, ◌&&◌, length, bytes_eq};
ghost use Rattle.std.specs.List.{list_all, list_any};
ghost use Rattle.wf_model.specs.Lists.{IsIn};
ghost use Rattle.wf_spec.specs.Naming.{names_of};
ghost use Rattle.wf_spec.specs.FirstFaults.{each, IsFirstFailing};
ghost use Rattle.wf_spec.specs.Pairs.{HasKnownPairs};
ghost use Rattle.wf_form.specs.declared.fault.FormFault.TheVariants.{UnknownPort};
ghost use Rattle.wf_form.specs.declared.fault.Spot.TheVariants.{DepsAt};

use crate::links::places::has_port;
use crate::wiring::module_number;
use wf_model::{DepsPart, PairPart};
use wf_names::Names;
use wf_spec::Module;

/// Whether each pair is of an input and an output of a module.
fn are_pairs_of(one: &Module, pairs: &[PairPart]) -> bool
    ensures { result ≡ list_all (λ e. list_any (bytes_eq e.input) one.now.inputs && list_any (bytes_eq e.output) one.now.outputs) pairs.now }
{
    let inputs = one.inputs();
    let outputs = one.outputs();
    pairs.iter().all(|e| has_port(inputs, e.input.bytes()) && has_port(outputs, e.output.bytes()))
}

/// The first deps part of which a pair names a port that is not there.
///
/// Cost: for each part one look-up of its module by hashing, and for each pair a look at no more than 64 inputs and 64 outputs.
pub fn first_unknown_pair(names: &Names, modules: &[Module], deps: &[DepsPart]) -> Option<usize>
    requires names { names.now ≡ names_of modules.now }
    requires few_modules { length modules.now ≤ 1024 }
    requires known { (d : DepsPart) → IsIn d deps.now → IsIn d.«module» names.now }
    ensures { IsFirstFailing (each deps.now (HasKnownPairs modules.now) (λ k. UnknownPort (DepsAt k))) result }
{
    for (k, part) in deps.iter().enumerate() {
        let number = module_number(names, part.module.bytes());
        if !are_pairs_of(&modules[number.0 as usize], part.pairs.items()) {
            return Some(k);
        }
    }
    None
}
