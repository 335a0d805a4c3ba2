// How two views that are not compared are told.
ghost use Rattle.std.specs.Prelude.{◌≡◌, ◌++◌, OnOk};
ghost use Rattle.wf_compare.specs.FaultText.{compare_text};

use crate::fault::CompareFault;
use grammar_text::{add_two, module_name};
use std::alloc::AllocError;
use wf_spec::Grammar;

impl CompareFault {
    /// Appends the text of the fault, which is one of two views of this grammar: its name, and the name of the module. Fails only for want of memory.
    pub fn add_text(self, out: &mut Vec<u8>, g: &Grammar) -> Result<(), AllocError>
        ensures { OnOk result (out.new.items ≡ out.old.items ++ compare_text g.now.core self) }
    {
        match self {
            CompareFault::NotCoarser { module } => {
                add_two(out, b"NotCoarser ", module_name(g, module))
            }
            CompareFault::NoMemory => Ok(out.extend_from_slice(b"NoMemory")?),
        }
    }
}
