// How the two loops of a grammar that is not strictly linear are told.
ghost use Rattle.std.specs.Prelude.{◌≡◌, ◌++◌, OnOk};
ghost use Rattle.wf_model.specs.Steps.{step_of};
ghost use Rattle.wf_recur.specs.FaultText.{loops_text, recur_text};

use crate::fault::RecurFault;
use grammar_text::{add_step, add_two, module_name};
use std::alloc::AllocError;
use wf_spec::{Grammar, ModNo, Step};

/// Appends the name of the fault, a module and two steps.
fn add_loops(
    out: &mut Vec<u8>,
    g: &Grammar,
    m: ModNo,
    first: Step,
    second: Step,
) -> Result<(), AllocError>
    ensures { OnOk result (out.new.items ≡ out.old.items ++ loops_text g.now.core m.0 (step_of first) (step_of second)) }
{
    add_two(out, b"TwoLoops ", module_name(g, m))?;
    add_step(out, b" first ", g, first)?;
    add_step(out, b" second ", g, second)
}

impl RecurFault {
    /// Appends the text of the fault, which is one of this grammar: its name, the name of the module, and its two least steps that lead back to it. Fails only for want of memory.
    pub fn add_text(self, out: &mut Vec<u8>, g: &Grammar) -> Result<(), AllocError>
        ensures { OnOk result (out.new.items ≡ out.old.items ++ recur_text g.now.core self) }
    {
        match self {
            RecurFault::TwoLoops {
                module,
                first,
                second,
            } => add_loops(out, g, module, first, second),
            RecurFault::NoMemory => Ok(out.extend_from_slice(b"NoMemory")?),
        }
    }
}
