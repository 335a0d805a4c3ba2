// Whether a version keeps its cycles.
ghost use Rattle.std.specs.Prelude.{◌≡◌, ◌⊎◌, IfErr, OnOk};
ghost use Rattle.wf_model.specs.Versions.{IsVersion, KeepsCycles};
ghost use Rattle.wf_version.specs.Keeping.{IsFaultOf};
ghost use Rattle.wf_version.specs.declared.fault.VersionFault.TheVariants.{NoMemory};

use crate::change::first_change;
use crate::fault::VersionFault;
use crate::rounds::marks;
use std::alloc::Global;
use wf_recur::Linear;
use wf_spec::Version;

/// Whether a version of a strictly linear grammar keeps its cycles: each of its composite modules that is on a cycle of the grammar is on one of the version.
///
/// Errors: `CycleChanged` with the least module that gets on a cycle; `NoMemory` may come at any time.
///
/// Cost: two looks at each module.
pub fn same_cycles(alloc: Global, g: Linear<'_>, version: Version) -> Result<(), VersionFault>
    requires version { IsVersion g.grammar.now.core version.modules version.productions }
    ensures kept { OnOk result (KeepsCycles g.entry.grammar.now.core version.modules version.productions) }
    ensures changed { IfErr result (λ f. (f ≡ NoMemory) ⊎ IsFaultOf g.entry.grammar.now.core version f) }
{
    let marks = marks(alloc, g, version)?;
    match first_change(g, &marks, version) {
        Some(module) => Err(VersionFault::CycleChanged { module }),
        None => Ok(()),
    }
}
