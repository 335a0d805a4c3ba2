// Grammars built from parts.
ghost use Rattle.std.specs.Prelude.{◌≡◌, ◌⊎◌, IfOk, IfErr};
ghost use Rattle.wf_form.specs.Forming.{held_of, HaveVersions, IsFormed};
ghost use Rattle.wf_form.specs.Rules.{IsFaultOf};
ghost use Rattle.wf_form.specs.declared.fault.FormFault.TheVariants.{NoMemory};

use crate::assemble::assemble;
use crate::assemble::modules::modules_from;
use crate::checks::{check_bodies, check_modules};
use crate::fault::FormFault;
use crate::links::wired;
use crate::versions::versioned;
use std::alloc::Global;
use wf_model::Parts;
use wf_spec::Grammar;

fn built(alloc: Global, key: u64, parts: &Parts) -> Result<Grammar, FormFault>
    ensures accepted { IfOk result (λ g. (g ≡ held_of parts.now) × IsFormed parts.now × HaveVersions parts.now) }
    ensures refused { IfErr result (λ f. (f ≡ NoMemory) ⊎ IsFaultOf parts.now f) }
{
    let names = check_modules(alloc, key, parts)?;
    check_bodies(alloc, &names, parts)?;
    let modules = modules_from(alloc, parts.modules.items())?;
    let wirings = wired(alloc, key, &names, &modules, parts)?;
    let grammar = assemble(alloc, key, parts, &names, modules, wirings)?;
    versioned(alloc, parts, grammar)
}

/// The grammar that parts describe, with its earlier versions: each name is turned into the number of the module, position or port that has it, and every list keeps its order.
///
/// A name in `parts` may hold any bytes; this call is the test. Errors: the fault of the first rule that the parts break, at the first place, in the order of `FormFault`; `NoMemory` may come at any time.
///
/// Cost: linear in the size of the parts, as a module is found by hashing, and a position or a port among at most 64; for each version one look at each position of each of its productions; the copies of all names, 8 bytes for each input of a module, and 4 for each version.
///
/// Names are hashed with the key, here and by the grammar.
pub fn build_with_key(alloc: Global, key: u64, parts: Parts) -> Result<Grammar, FormFault>
    ensures accepted { IfOk result (λ g. (g ≡ held_of parts) × IsFormed parts × HaveVersions parts) }
    ensures refused { IfErr result (λ f. (f ≡ NoMemory) ⊎ IsFaultOf parts f) }
{
    built(alloc, key, &parts)
}

/// The grammar that parts describe, with its earlier versions, as `build_with_key` with the key 0.
pub fn build(alloc: Global, parts: Parts) -> Result<Grammar, FormFault>
    ensures accepted { IfOk result (λ g. (g ≡ held_of parts) × IsFormed parts × HaveVersions parts) }
    ensures refused { IfErr result (λ f. (f ≡ NoMemory) ⊎ IsFaultOf parts f) }
{
    build_with_key(alloc, 0, parts)
}
