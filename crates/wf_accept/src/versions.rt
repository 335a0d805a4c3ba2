// Whether all versions of a strictly linear grammar keep their cycles.
ghost use Rattle.std.specs.Prelude.{◌≡◌, ◌⊎◌, IfSome, IfNone};
ghost use Rattle.wf_accept.specs.Accepted.{AllKeepCycles};
ghost use Rattle.wf_accept.specs.Faults.{IsFirstChanged};

use std::alloc::Global;
use wf_recur::Linear;
use wf_version::{VersionFault, same_cycles};

/// The first version that does not keep its cycles, by its number, and its fault; none where all do. Want of memory stands as the fault of the version at which it came.
///
/// Cost: for each version two looks at each module.
pub(crate) fn first_changed(alloc: Global, g: Linear<'_>) -> Option<(u64, VersionFault)>
    ensures kept { IfNone result (AllKeepCycles g.entry.grammar.now) }
    ensures changed { IfSome result (λ p. (p.1 ≡ VersionFault.NoMemory) ⊎ IsFirstChanged g.entry.grammar.now p.0 p.1) }
{
    let versions = g.grammar.versions();
    for n in 0..versions.len() {
        if let Err(fault) = same_cycles(alloc, g, versions[n]) {
            return Some((n as u64, fault));
        }
    }
    None
}
