// Why a JSON text is refused.
ghost use Rattle.wf_json.specs.declared.fault.JsonFault.TheVariants.{NoMemory};
ghost use Rattle.std.specs.Prelude.{◌≡◌};

use std::alloc::{AllocError, AllocFailed};

/// A member of a specification or of a view.
#[derive(Clone, Copy, Debug, PartialEq, Eq)]
pub enum Member {
    /// The value itself, which is no object.
    Top,
    /// `start`
    Start,
    /// `modules`
    Modules,
    /// `productions`
    Productions,
    /// `deps`
    DepsList,
    /// `versions`
    Versions,
    /// `expand`
    Expand,
}

/// Why a text is no specification or no view, in the order of trial.
#[derive(Clone, Copy, Debug, PartialEq, Eq)]
pub enum JsonFault {
    /// The bytes are not UTF-8, or no JSON value.
    NotJson,
    /// This member is the first that has not its form.
    WrongShape { member: Member },
    /// Memory was refused.
    NoMemory,
}

impl From<AllocError> for JsonFault {
    ghost from_gives = { λ _ e. e ≡ NoMemory };

    fn from(_: AllocError) -> JsonFault {
        JsonFault::NoMemory
    }
}

impl<T: Drop> From<AllocFailed<T>> for JsonFault {
    ghost from_gives = { λ _ e. e ≡ NoMemory };

    fn from(_: AllocFailed<T>) -> JsonFault {
        JsonFault::NoMemory
    }
}
