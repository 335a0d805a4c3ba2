// Why a text is not written whole.
ghost use Rattle.std.specs.Prelude.{◌≡◌};
ghost use Rattle.wf_export.specs.declared.fault.ExportFault.TheVariants.{NoMemory};

use std::alloc::{AllocError, AllocFailed};

/// Why the provenance of a run is not written whole.
#[derive(Clone, Copy, Debug, PartialEq, Eq)]
pub enum ExportFault {
    /// Writing failed, and the sink's count of faults rose.
    WriteFault,
    /// Memory was refused.
    NoMemory,
}

impl From<AllocError> for ExportFault {
    ghost from_gives = { λ _ e. e ≡ NoMemory };

    fn from(_: AllocError) -> ExportFault {
        ExportFault::NoMemory
    }
}

impl<T: Drop> From<AllocFailed<T>> for ExportFault {
    ghost from_gives = { λ _ e. e ≡ NoMemory };

    fn from(_: AllocFailed<T>) -> ExportFault {
        ExportFault::NoMemory
    }
}
