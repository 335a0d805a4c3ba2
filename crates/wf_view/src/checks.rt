// The rules on the parts of a view.
ghost use Rattle.std.specs.Prelude.{◌≡◌, ◌⊎◌, drop, take, IfErr, OnOk};
ghost use Rattle.wf_view.specs.Marks.{AreMarks};
ghost use Rattle.wf_spec.specs.FirstFaults.{AllHold, IsFirstFault};
ghost use Rattle.wf_view.specs.Rules.{listed, rules_of};
ghost use Rattle.wf_view.specs.declared.fault.ViewFault.TheVariants.{NoMemory};

mod composite;
mod known;
mod pairs;
mod shown;
mod twice;

use crate::checks::composite::first_atomic_name;
use crate::checks::known::{first_unknown_name, first_unknown_part};
use crate::checks::pairs::first_unknown_pair;
use crate::checks::shown::first_on_expanded;
use crate::checks::twice::{first_name_twice, first_part_twice};
use crate::fault::{ViewFault, ViewSpot};
use std::alloc::Global;
use wf_spec::{Grammar, Name, ViewParts};

/// The names that are to be expanded, none where there is no list.
fn listed(parts: &ViewParts) -> &[Name]
    ensures { result.now ≡ listed parts.now.expand }
{
    match &parts.expand {
        Some(names) => names.items(),
        None => &[],
    }
}

/// The rules on names by themselves: each is that of a module, and those to be expanded are of composite ones.
pub fn check_names(g: &Grammar, parts: &ViewParts) -> Result<(), ViewFault>
    ensures kept { OnOk result (AllHold (take 3 (rules_of g.now.core parts.now))) }
    ensures refused { IfErr result (IsFirstFault (take 3 (rules_of g.now.core parts.now))) }
{
    let names = listed(parts);
    if let Some(k) = first_unknown_name(g, names) {
        return Err(ViewFault::UnknownModule {
            at: ViewSpot::ExpandAt(k as u64),
        });
    }
    if let Some(k) = first_unknown_part(g, parts.deps.items()) {
        return Err(ViewFault::UnknownModule {
            at: ViewSpot::DepsAt(k as u64),
        });
    }
    if let Some(k) = first_atomic_name(g, names) {
        return Err(ViewFault::NotComposite { expand: k as u64 });
    }
    Ok(())
}

/// The rules on the lists: each deps part is about a module that is not expanded, its pairs are of ports of this module, and no module stands a second time in a list.
///
/// `marks` are the flags of the modules that the parts expand, and the rules of `check_names` hold.
///
/// Cost: for each name of the lists some look-ups by hashing and a copy, and for each pair a look at no more than 64 inputs and 64 outputs.
pub fn check_lists(
    alloc: Global,
    g: &Grammar,
    parts: &ViewParts,
    marks: &[bool],
) -> Result<(), ViewFault>
    requires marks { AreMarks g.now.core parts.now marks.now }
    requires names { AllHold (take 3 (rules_of g.now.core parts.now)) }
    ensures kept { OnOk result (AllHold (drop 3 (rules_of g.now.core parts.now))) }
    ensures refused { IfErr result (λ f. (f ≡ NoMemory) ⊎ IsFirstFault (drop 3 (rules_of g.now.core parts.now)) f) }
{
    let deps = parts.deps.items();
    if let Some(k) = first_on_expanded(g, parts, marks) {
        return Err(ViewFault::DepsOnExpanded { deps: k as u64 });
    }
    if let Some(k) = first_unknown_pair(g, deps) {
        return Err(ViewFault::UnknownPort { deps: k as u64 });
    }
    let name_twice = first_name_twice(alloc, listed(parts))?;
    if let Some(k) = name_twice {
        return Err(ViewFault::ModuleTwice {
            at: ViewSpot::ExpandAt(k as u64),
        });
    }
    let part_twice = first_part_twice(alloc, deps)?;
    if let Some(k) = part_twice {
        return Err(ViewFault::ModuleTwice {
            at: ViewSpot::DepsAt(k as u64),
        });
    }
    Ok(())
}
