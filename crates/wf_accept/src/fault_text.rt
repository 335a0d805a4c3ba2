// How the fault of a grammar that is not accepted is told.
ghost use Rattle.std.specs.Prelude.{◌≡◌, ◌++◌, OnOk};
ghost use Rattle.wf_accept.specs.FaultText.{accept_text};

use crate::fault::AcceptFault;
use std::alloc::AllocError;
use wf_spec::Grammar;

impl AcceptFault {
    /// Appends the text of the fault, which is one of this grammar. Fails only for want of memory.
    pub fn add_text(&self, out: &mut Vec<u8>, g: &Grammar) -> Result<(), AllocError>
        ensures { OnOk result (out.new.items ≡ out.old.items ++ accept_text g.now.core self.now) }
    {
        match self {
            AcceptFault::NotProper(fault) => fault.add_text(out, g),
            AcceptFault::NotLinear(fault) => fault.add_text(out, g),
            AcceptFault::VersionChanged { version, fault } => fault.add_text(out, g, *version),
            AcceptFault::NoMemory => Ok(out.extend_from_slice(b"NoMemory")?),
        }
    }
}
