// Why a grammar has no such loops.
ghost use Rattle.std.specs.Prelude.{◌≡◌};
ghost use Rattle.wf_loops.specs.declared.fault.LoopsFault.TheVariants.{NoMemory};

use std::alloc::{AllocError, AllocFailed};

/// Why a grammar has no such loops, in the order of trial.
#[derive(Clone, Copy, Drop)]
pub enum LoopsFault {
    /// The loops are not good.
    BadLoops,
    /// Memory was refused.
    NoMemory,
}

impl From<AllocError> for LoopsFault {
    ghost from_gives = { λ _ e. e ≡ NoMemory };

    fn from(_: AllocError) -> LoopsFault {
        LoopsFault::NoMemory
    }
}

impl<T: Drop> From<AllocFailed<T>> for LoopsFault {
    ghost from_gives = { λ _ e. e ≡ NoMemory };

    fn from(_: AllocFailed<T>) -> LoopsFault {
        LoopsFault::NoMemory
    }
}
