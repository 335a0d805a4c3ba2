// Names that have to be those of modules.
ghost use Rattle.std.specs.Prelude.{◌≡◌};
ghost use Rattle.wf_model.specs.Faults.{is_one_of};
ghost use Rattle.wf_spec.specs.Naming.{names_of};
ghost use Rattle.wf_spec.specs.FirstFaults.{each, IsFirstFailing};
ghost use Rattle.wf_view.specs.Rules.{IsModuleName};
ghost use Rattle.wf_view.specs.declared.fault.ViewSpot.TheVariants.{DepsAt, ExpandAt};
ghost use Rattle.wf_view.specs.declared.fault.ViewFault.TheVariants.{UnknownModule};

use wf_spec::{DepsPart, Grammar, Name};

/// Whether a name is that of a module.
fn is_module_name(g: &Grammar, name: &[u8]) -> bool
    ensures { result ≡ is_one_of (names_of g.now.core.modules) name.now }
{
    g.find(name).is_some()
}

/// The first name that is that of no module.
///
/// Cost: for each name one look-up by hashing.
pub fn first_unknown_name(g: &Grammar, names: &[Name]) -> Option<usize>
    ensures { IsFirstFailing (each names.now (IsModuleName g.now.core) (λ k. UnknownModule (ExpandAt k))) result }
{
    names
        .iter()
        .position(|name| !is_module_name(g, name.bytes()))
}

/// The first deps part whose name is that of no module.
///
/// Cost: for each part one look-up by hashing.
pub fn first_unknown_part(g: &Grammar, deps: &[DepsPart]) -> Option<usize>
    ensures { IsFirstFailing (each deps.now (λ d. IsModuleName g.now.core d.«module») (λ k. UnknownModule (DepsAt k))) result }
{
    deps.iter()
        .position(|part| !is_module_name(g, part.module.bytes()))
}
