// Why bytes have no translation.
ghost use Rattle.std.specs.Prelude.{◌≡◌};
ghost use Rattle.wf_translate.specs.declared.fault.PackLabelFault.TheVariants.{NoMemory};

use std::alloc::{AllocError, AllocFailed};

/// Why bytes have no translation over a package, in the order of trial.
#[derive(Clone, Copy)]
pub enum PackLabelFault {
    /// The reading neither comes to an atomic module nor to its end with fewer than eight zero bits left.
    Malformed,
    /// Memory was refused.
    NoMemory,
}

impl From<AllocError> for PackLabelFault {
    ghost from_gives = { λ _ e. e ≡ NoMemory };

    fn from(_: AllocError) -> PackLabelFault {
        PackLabelFault::NoMemory
    }
}

impl<T: Drop> From<AllocFailed<T>> for PackLabelFault {
    ghost from_gives = { λ _ e. e ≡ NoMemory };

    fn from(_: AllocFailed<T>) -> PackLabelFault {
        PackLabelFault::NoMemory
    }
}
