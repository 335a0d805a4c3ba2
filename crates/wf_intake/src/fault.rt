// Why a report is not taken.
ghost use Rattle.std.specs.Prelude.{◌≡◌};
ghost use Rattle.wf_intake.specs.declared.fault.IntakeFault.TheVariants.{NoMemory};

use std::alloc::AllocError;
use wf_model::RunFault;

/// Why a report is not taken, by the number of its line.
#[derive(Clone, Copy, Debug, PartialEq, Eq, Drop)]
pub enum IntakeFault {
    /// The report of an earlier line is about the same, and reports another event.
    Conflict { line: u64, earlier: u64 },
    /// The event came to be ready, and the run refuses it.
    Refused { line: u64, fault: RunFault },
    /// The event never came to be ready.
    Orphan { line: u64 },
    /// Memory was refused.
    NoMemory,
}

impl From<AllocError> for IntakeFault {
    ghost from_gives = { λ _ e. e ≡ NoMemory };

    fn from(_: AllocError) -> IntakeFault {
        IntakeFault::NoMemory
    }
}
