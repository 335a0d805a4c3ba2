// Events, and why a run refuses one.
ghost use Rattle.wf_model.specs.declared.event.RunFault.TheVariants.{NoMemory};
ghost use Rattle.std.specs.Prelude.{◌≡◌};

use crate::name::{Name, Seq};
use std::alloc::{AllocError, AllocFailed};

/// A run starts with the name of its root. An instance is expanded by a production, with a name for each position.
#[derive(Drop)]
pub enum Event {
    Start {
        name: Name,
    },
    Expand {
        instance: Name,
        production: u64,
        names: Seq<Name>,
    },
}

/// Why an event is refused, in the order of trial.
#[derive(Clone, Copy, Debug, PartialEq, Eq)]
pub enum RunFault {
    NotStarted,
    StartedTwice,
    UnknownInstance,
    UnknownProduction,
    WrongHead,
    AlreadyExpanded,
    PositionsWrong,
    NameBad,
    NameTwice,
    TooManyInstances,
    NoMemory,
}

impl From<AllocError> for RunFault {
    ghost from_gives = { λ _ e. e ≡ NoMemory };

    fn from(_: AllocError) -> RunFault {
        RunFault::NoMemory
    }
}

impl<T: Drop> From<AllocFailed<T>> for RunFault {
    ghost from_gives = { λ _ e. e ≡ NoMemory };

    fn from(_: AllocFailed<T>) -> RunFault {
        RunFault::NoMemory
    }
}
