// Names that stand a second time in a list, found by hashing. Each was found to be that of a module before, so a table holds at most 1,024 of them, and needs no key.
ghost use Rattle.std.specs.Prelude.{IfOk};
ghost use Rattle.wf_spec.specs.FirstFaults.{IsFirstFailing};
ghost use Rattle.wf_view.specs.Rules.{deps_names, new_names};
ghost use Rattle.wf_view.specs.declared.fault.ViewSpot.TheVariants.{DepsAt, ExpandAt};
ghost use Rattle.wf_view.specs.declared.fault.ViewFault.TheVariants.{ModuleTwice};

use std::alloc::{AllocError, Global};
use wf_names::Names;
use wf_spec::{DepsPart, Name};

/// The first name that an earlier place of the list has.
///
/// Cost: for each name up to there one look-up by hashing and one copy of it.
pub fn first_name_twice(alloc: Global, names: &[Name]) -> Result<Option<usize>, AllocError>
    ensures { IfOk result (λ answer. IsFirstFailing (new_names names.now (λ k. ModuleTwice (ExpandAt k))) answer) }
{
    let mut taken = Names::new(alloc);
    for (k, one) in names.iter().enumerate() {
        let name = one.bytes();
        if taken.holds(name) {
            return Ok(Some(k));
        }
        taken.add(name)?;
    }
    Ok(None)
}

/// The first deps part about a module that an earlier part is about.
///
/// Cost: for each part up to there one look-up by hashing and one copy of its name.
pub fn first_part_twice(alloc: Global, deps: &[DepsPart]) -> Result<Option<usize>, AllocError>
    ensures { IfOk result (λ answer. IsFirstFailing (new_names (deps_names deps.now) (λ k. ModuleTwice (DepsAt k))) answer) }
{
    let mut taken = Names::new(alloc);
    for (k, part) in deps.iter().enumerate() {
        let name = part.module.bytes();
        if taken.holds(name) {
            return Ok(Some(k));
        }
        taken.add(name)?;
    }
    Ok(None)
}
