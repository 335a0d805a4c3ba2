// Why an event line is refused.
ghost use Rattle.wf_events.specs.declared.fault.EventFault.TheVariants.{NoMemory};
ghost use Rattle.std.specs.Prelude.{◌≡◌};

use std::alloc::{AllocError, AllocFailed};

/// Why a line is no event, in the order of trial.
#[derive(Clone, Copy, Debug, PartialEq, Eq)]
pub enum EventFault {
    /// The bytes are not UTF-8, or no JSON value.
    NotJson,
    /// The value has not the form of an event.
    WrongShape,
    /// Memory was refused.
    NoMemory,
}

impl From<AllocError> for EventFault {
    ghost from_gives = { λ _ e. e ≡ NoMemory };

    fn from(_: AllocError) -> EventFault {
        EventFault::NoMemory
    }
}

impl<T: Drop> From<AllocFailed<T>> for EventFault {
    ghost from_gives = { λ _ e. e ≡ NoMemory };

    fn from(_: AllocFailed<T>) -> EventFault {
        EventFault::NoMemory
    }
}
