// Why a view has no full assignment.
ghost use Rattle.wf_safe.specs.declared.fault.SafeFault.TheVariants.{NoMemory};
ghost use Rattle.std.specs.Prelude.{◌≡◌};

use crate::witness::Witness;
use std::alloc::{AllocError, AllocFailed};

/// Why a view has no full assignment.
#[derive(Drop)]
pub enum SafeFault {
    /// The view is not safe: two expansions of a module disagree.
    Unsafe { witness: Witness },
    /// Memory was refused.
    NoMemory,
}

impl From<AllocError> for SafeFault {
    ghost from_gives = { λ _ e. e ≡ NoMemory };

    fn from(_: AllocError) -> SafeFault {
        SafeFault::NoMemory
    }
}

impl<T: Drop> From<AllocFailed<T>> for SafeFault {
    ghost from_gives = { λ _ e. e ≡ NoMemory };

    fn from(_: AllocFailed<T>) -> SafeFault {
        SafeFault::NoMemory
    }
}
