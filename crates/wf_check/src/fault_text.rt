// How a fault of a grammar is told.
ghost use Rattle.std.specs.Prelude.{◌≡◌, ◌++◌, OnOk};
ghost use Rattle.wf_check.specs.FaultText.{check_text};

use crate::fault::CheckFault;
use grammar_text::{add_numbers, add_two, module_name};
use std::alloc::AllocError;
use wf_spec::Grammar;

impl CheckFault {
    /// Appends the text of the fault, which is one of this grammar: its name, and the name of the module or the numbers of the productions. Fails only for want of memory.
    pub fn add_text(&self, out: &mut Vec<u8>, g: &Grammar) -> Result<(), AllocError>
        ensures { OnOk result (out.new.items ≡ out.old.items ++ check_text g.now.core self.now) }
    {
        match self {
            CheckFault::Unreachable { module } => {
                add_two(out, b"Unreachable ", module_name(g, *module))
            }
            CheckFault::Unproductive { module } => {
                add_two(out, b"Unproductive ", module_name(g, *module))
            }
            CheckFault::UnitCycle { productions } => {
                add_numbers(out, b"UnitCycle productions", productions.items())
            }
            CheckFault::NoMemory => Ok(out.extend_from_slice(b"NoMemory")?),
        }
    }
}
