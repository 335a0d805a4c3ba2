// Deps parts on composite modules.
ghost use Rattle.std.specs.Prelude.{◌≡◌, ◌↔◌, ◌⊎◌, List, ℕ, map, IfOk, OnOk};
ghost use Rattle.wf_model.specs.Lists.{IsIn};
ghost use Rattle.wf_spec.specs.FirstFaults.{each, IsFirstFailing};
ghost use Rattle.wf_form.specs.Rules.{IsOfAtomic};
ghost use Rattle.wf_form.specs.declared.fault.FormFault.TheVariants.{DepsOnComposite};

use std::alloc::{AllocError, Global};
use wf_model::{DepsPart, ProdPart};
use wf_names::Names;

/// Takes a name, if it is new.
fn take(names: &mut Names, name: &[u8]) -> Result<(), AllocError>
    ensures { OnOk result ((n : List ℕ) → IsIn n names.new ↔ (IsIn n names.old ⊎ (n ≡ name.now))) }
{
    if names.holds(name) {
        return Ok(());
    }
    names.add(name)?;
    Ok(())
}

/// The names of the heads.
fn heads(alloc: Global, key: u64, productions: &[ProdPart]) -> Result<Names, AllocError>
    ensures { IfOk result (λ names. (n : List ℕ) → IsIn n names ↔ IsIn n (map (λ p. p.head) productions.now)) }
{
    let mut names = Names::with_key(alloc, key);
    for rule in productions {
        take(&mut names, rule.head.bytes())?;
    }
    Ok(names)
}

/// The first deps part whose module is a head.
///
/// Cost: for each production and each deps part one look-up by hashing with the key, and a copy of the name of each head.
pub fn first_on_composite(
    alloc: Global,
    key: u64,
    productions: &[ProdPart],
    deps: &[DepsPart],
) -> Result<Option<usize>, AllocError>
    ensures { IfOk result (λ answer. IsFirstFailing (each deps.now (IsOfAtomic productions.now) DepsOnComposite) answer) }
{
    let heads = heads(alloc, key, productions)?;
    Ok(deps.iter().position(|d| heads.holds(d.module.bytes())))
}
