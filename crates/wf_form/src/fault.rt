// Why parts form no grammar.
ghost use Rattle.wf_form.specs.declared.fault.FormFault.TheVariants.{NoMemory};
ghost use Rattle.std.specs.Prelude.{◌≡◌};

use std::alloc::{AllocError, AllocFailed};

/// The part of a specification that a fault is about, by its number in its list, from 0.
#[derive(Clone, Copy, Debug, PartialEq, Eq)]
pub enum Spot {
    Start,
    Module(u64),
    Production(u64),
    DepsAt(u64),
    Version(u64),
}

/// Why parts form no grammar, in the order of trial.
///
/// Each rule is tried over all parts before the next one, and the first part that breaks it is told, by its number in its list, from 0.
#[derive(Clone, Copy, Debug, PartialEq, Eq)]
pub enum FormFault {
    /// The name of a module, a port or a position is not one of 1 to 64 letters, digits, `_` and `-`.
    NameBad { at: Spot },
    /// A module has the name of an earlier one.
    NameTwice { module: u64 },
    /// A port's name stands twice among the inputs and outputs of a module.
    PortTwice { module: u64 },
    /// A module has more than 64 inputs, or more than 64 outputs.
    TooManyPorts { module: u64 },
    /// There are more than 1,024 modules.
    TooManyModules,
    /// There are more than 1,024 productions.
    TooManyProductions,
    /// The start, a head, the module of a position or the module of a deps part is no module.
    UnknownModule { at: Spot },
    /// A body has no position.
    EmptyBody { production: u64 },
    /// A body has more than 64 positions.
    BodyTooLong { production: u64 },
    /// The squares of the lengths of the bodies add up to more than 65,536.
    BodiesTooLarge,
    /// A position's name stands twice in a body.
    PositionTwice { production: u64 },
    /// A link or a pair names a position or a port that is not there, on the side that it needs.
    UnknownPort { at: Spot },
    /// A port of a body or of its head has two links.
    PortLinkedTwice { production: u64 },
    /// A port of a body or of its head has no link.
    PortUnlinked { production: u64 },
    /// The edges of a body lead from a position back to it.
    BodyCycle { production: u64 },
    /// A deps part names a composite module.
    DepsOnComposite { deps: u64 },
    /// There are more than 64 versions.
    TooManyVersions,
    /// A version has more modules or productions than there are, or one of its productions has a head or a module that is none of its modules, or the start is none of them.
    VersionBad { version: u64 },
    /// Memory was refused.
    NoMemory,
}

impl From<AllocError> for FormFault {
    ghost from_gives = { λ _ e. e ≡ NoMemory };

    fn from(_: AllocError) -> FormFault {
        FormFault::NoMemory
    }
}

impl<T: Drop> From<AllocFailed<T>> for FormFault {
    ghost from_gives = { λ _ e. e ≡ NoMemory };

    fn from(_: AllocFailed<T>) -> FormFault {
        FormFault::NoMemory
    }
}
