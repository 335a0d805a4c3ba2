// Why a text is no automaton over the modules of a grammar.
ghost use Rattle.wf_automaton.specs.declared.fault.AutoFault.TheVariants.{NoMemory};
ghost use Rattle.std.specs.Prelude.{◌≡◌};

use std::alloc::{AllocError, AllocFailed};

/// A member of an automaton.
#[derive(Clone, Copy)]
pub enum AutoMember {
    /// The value itself, which is no object.
    Top,
    /// `states`
    States,
    /// `start`
    Start,
    /// `accept`
    Accept,
    /// `moves`
    Moves,
}

/// What a fault of an automaton is about: a member, or a move by its number, from 0.
#[derive(Clone, Copy)]
pub enum AutoSpot {
    InMember(AutoMember),
    MoveAt(u64),
}

/// Why a text is no automaton over the modules of a grammar, in the order of trial.
///
/// Each rule is tried over the whole text before the next one, and the first place that breaks it is told.
#[derive(Clone, Copy)]
pub enum AutoFault {
    /// The bytes are not UTF-8, or no JSON value.
    NotJson,
    /// This member is the first that has not its form.
    WrongShape { member: AutoMember },
    /// There is no state, or there are more than 64.
    StatesBad,
    /// A state in this member is not below the number of states.
    StateBad { member: AutoMember },
    /// The name in a move is that of no module.
    UnknownModule { at: u64 },
    /// An earlier move has the same state and the same module.
    MoveTwice { at: u64 },
    /// The ports of a module on one side, each in every state, are more than 64.
    TooManyStates,
    /// Memory was refused.
    NoMemory,
}

impl From<AllocError> for AutoFault {
    ghost from_gives = { λ _ e. e ≡ NoMemory };

    fn from(_: AllocError) -> AutoFault {
        AutoFault::NoMemory
    }
}

impl<T: Drop> From<AllocFailed<T>> for AutoFault {
    ghost from_gives = { λ _ e. e ≡ NoMemory };

    fn from(_: AllocFailed<T>) -> AutoFault {
        AutoFault::NoMemory
    }
}
