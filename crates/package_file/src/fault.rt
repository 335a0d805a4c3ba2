// Why bytes are no package.
ghost use Rattle.std.specs.Prelude.{◌≡◌};
ghost use Rattle.package_file.specs.declared.fault.PackFault.TheVariants.{NoMemory};

use std::alloc::{AllocError, AllocFailed};

/// Why bytes are no package, in the order of trial.
#[derive(Clone, Copy, Drop)]
pub enum PackFault {
    /// The bytes are not UTF-8, or no JSON value.
    NotJson,
    /// The value is no object with all six members, each with its form and `package` the whole number 1.
    NotPackage,
    /// The grammar is not accepted, or its default view is not safe, or the loops are not good.
    BadPackage,
    /// Memory was refused.
    NoMemory,
}

impl From<AllocError> for PackFault {
    ghost from_gives = { λ _ e. e ≡ NoMemory };

    fn from(_: AllocError) -> PackFault {
        PackFault::NoMemory
    }
}

impl<T: Drop> From<AllocFailed<T>> for PackFault {
    ghost from_gives = { λ _ e. e ≡ NoMemory };

    fn from(_: AllocFailed<T>) -> PackFault {
        PackFault::NoMemory
    }
}
