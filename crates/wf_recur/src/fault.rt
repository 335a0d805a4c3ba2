// Why a grammar is not strictly linear.
ghost use Rattle.wf_recur.specs.declared.fault.RecurFault.TheVariants.{NoMemory};
ghost use Rattle.std.specs.Prelude.{◌≡◌};

use std::alloc::{AllocError, AllocFailed};
use wf_spec::{ModNo, Step};

/// Why a grammar is not strictly linear.
#[derive(Clone, Copy, Debug, PartialEq, Eq)]
pub enum RecurFault {
    /// A module has two steps that lead back to it: the least such module, and the two least of its steps, by production and then by position.
    TwoLoops {
        module: ModNo,
        first: Step,
        second: Step,
    },
    /// Memory was refused.
    NoMemory,
}

impl From<AllocError> for RecurFault {
    ghost from_gives = { λ _ e. e ≡ NoMemory };

    fn from(_: AllocError) -> RecurFault {
        RecurFault::NoMemory
    }
}

impl<T: Drop> From<AllocFailed<T>> for RecurFault {
    ghost from_gives = { λ _ e. e ≡ NoMemory };

    fn from(_: AllocFailed<T>) -> RecurFault {
        RecurFault::NoMemory
    }
}
