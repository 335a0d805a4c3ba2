// Why a version is refused.
ghost use Rattle.std.specs.Prelude.{◌≡◌};
ghost use Rattle.wf_version.specs.declared.fault.VersionFault.TheVariants.{NoMemory};

use std::alloc::{AllocError, AllocFailed};
use wf_spec::ModNo;

/// Why a version of a grammar is refused.
#[derive(Clone, Copy, Debug, PartialEq, Eq)]
pub enum VersionFault {
    /// A module that is composite in the version, and on no cycle of it, is on a cycle of the grammar: the least such module.
    CycleChanged { module: ModNo },
    /// Memory was refused.
    NoMemory,
}

impl From<AllocError> for VersionFault {
    ghost from_gives = { λ _ e. e ≡ NoMemory };

    fn from(_: AllocError) -> VersionFault {
        VersionFault::NoMemory
    }
}

impl<T: Drop> From<AllocFailed<T>> for VersionFault {
    ghost from_gives = { λ _ e. e ≡ NoMemory };

    fn from(_: AllocFailed<T>) -> VersionFault {
        VersionFault::NoMemory
    }
}
