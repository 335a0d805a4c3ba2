// Why a grammar is not proper.
ghost use Rattle.wf_check.specs.declared.fault.CheckFault.TheVariants.{NoMemory};
ghost use Rattle.std.specs.Prelude.{◌≡◌};

use std::alloc::{AllocError, AllocFailed};
use wf_spec::{ModNo, ProdNo, Seq};

/// Why a grammar is not proper, in the order of trial.
#[derive(Drop)]
pub enum CheckFault {
    /// The least composite module to which no list of bodies leads from the start module.
    Unreachable { module: ModNo },
    /// The least composite module that has no expansion that ends.
    Unproductive { module: ModNo },
    /// Unit productions that lead from a module back to it: through the least module on such a cycle, from which they begin; as few as there are, and of these the first by the numbers of the productions.
    UnitCycle { productions: Seq<ProdNo> },
    /// Memory was refused.
    NoMemory,
}

impl From<AllocError> for CheckFault {
    ghost from_gives = { λ _ e. e ≡ NoMemory };

    fn from(_: AllocError) -> CheckFault {
        CheckFault::NoMemory
    }
}

impl<T: Drop> From<AllocFailed<T>> for CheckFault {
    ghost from_gives = { λ _ e. e ≡ NoMemory };

    fn from(_: AllocFailed<T>) -> CheckFault {
        CheckFault::NoMemory
    }
}
