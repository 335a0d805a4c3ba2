// How a version that changes a cycle is told.
ghost use Rattle.std.specs.Prelude.{◌≡◌, ◌++◌, codes, decimal, OnOk};
ghost use Rattle.grammar_text.specs.Names.{name_of};
ghost use Rattle.wf_version.specs.FaultText.{version_text};

use crate::fault::VersionFault;
use grammar_text::{add_numbered, add_two, module_name};
use std::alloc::AllocError;
use wf_spec::{Grammar, ModNo};

/// Appends the name of the fault, the number of a version, and a module.
fn add_change(out: &mut Vec<u8>, g: &Grammar, version: u64, m: ModNo) -> Result<(), AllocError>
    ensures { OnOk result (out.new.items ≡ out.old.items ++
        ((codes "CycleChanged version " ++ decimal version) ++ (codes " module " ++ name_of g.now.core m.0))) }
{
    add_numbered(out, b"CycleChanged version ", version)?;
    add_two(out, b" module ", module_name(g, m))
}

impl VersionFault {
    /// Appends the text of the fault of the version of this number, which is one of this grammar: its name, the number, and the name of the module. Fails only for want of memory.
    pub fn add_text(self, out: &mut Vec<u8>, g: &Grammar, version: u64) -> Result<(), AllocError>
        ensures { OnOk result (out.new.items ≡ out.old.items ++ version_text g.now.core version self) }
    {
        match self {
            VersionFault::CycleChanged { module } => add_change(out, g, version, module),
            VersionFault::NoMemory => Ok(out.extend_from_slice(b"NoMemory")?),
        }
    }
}
