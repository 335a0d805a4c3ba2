// Deps parts, which have to be about modules that the view does not expand.
ghost use Rattle.std.specs.Prelude.{◌≡◌, false, get_or, length};
ghost use Rattle.wf_model.specs.Lists.{IsIn};
ghost use Rattle.wf_view.specs.Marks.{AreMarks};
ghost use Rattle.wf_spec.specs.FirstFaults.{each, IsFirstFailing};
ghost use Rattle.wf_view.specs.Rules.{number_in, IsModuleName, IsOnShown};
ghost use Rattle.wf_view.specs.declared.fault.ViewFault.TheVariants.{DepsOnExpanded};

use crate::view::is_flagged;
use wf_spec::{DepsPart, Grammar, ViewParts};

/// Whether the flag of the module of a name is set.
fn is_name_flagged(g: &Grammar, flags: &[bool], name: &[u8]) -> bool
    requires { length flags.now ≡ length g.now.core.modules }
    ensures { result ≡ get_or flags.now (number_in g.now.core name.now) false }
{
    match g.find(name) {
        Some(m) => is_flagged(flags, m),
        None => false,
    }
}

/// The first deps part about a module that the view expands, as the flags tell.
///
/// Cost: for each part one look-up by hashing.
pub fn first_on_expanded(g: &Grammar, parts: &ViewParts, flags: &[bool]) -> Option<usize>
    requires flags { AreMarks g.now.core parts.now flags.now }
    requires known { (d : DepsPart) → IsIn d parts.now.deps → IsModuleName g.now.core d.«module» }
    ensures { IsFirstFailing (each parts.now.deps (IsOnShown g.now.core parts.now) DepsOnExpanded) result }
{
    parts
        .deps
        .items()
        .iter()
        .position(|part| is_name_flagged(g, flags, part.module.bytes()))
}
