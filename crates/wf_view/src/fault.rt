// Why parts describe no view.
ghost use Rattle.wf_view.specs.declared.fault.ViewFault.TheVariants.{NoMemory};
ghost use Rattle.std.specs.Prelude.{◌≡◌};

use std::alloc::{AllocError, AllocFailed};

/// The place in the parts of a view that a fault is about, by its number in its list, from 0.
#[derive(Clone, Copy, Debug, PartialEq, Eq)]
pub enum ViewSpot {
    ExpandAt(u64),
    DepsAt(u64),
}

/// Why parts describe no view of a grammar, in the order of trial.
///
/// Each rule is tried over the whole input before the next one, the names to be expanded before the deps parts, and the first place that breaks it is told.
#[derive(Clone, Copy, Debug, PartialEq, Eq)]
pub enum ViewFault {
    /// A name to be expanded, or the name of a deps part, is that of no module.
    UnknownModule { at: ViewSpot },
    /// A name to be expanded is that of an atomic module.
    NotComposite { expand: u64 },
    /// A deps part is about a module that the view expands, whether it is seen or not.
    DepsOnExpanded { deps: u64 },
    /// A pair of a deps part names no input, or no output, of its module.
    UnknownPort { deps: u64 },
    /// A module stands a second time in one of the two lists.
    ModuleTwice { at: ViewSpot },
    /// Memory was refused.
    NoMemory,
}

impl From<AllocError> for ViewFault {
    ghost from_gives = { λ _ e. e ≡ NoMemory };

    fn from(_: AllocError) -> ViewFault {
        ViewFault::NoMemory
    }
}

impl<T: Drop> From<AllocFailed<T>> for ViewFault {
    ghost from_gives = { λ _ e. e ≡ NoMemory };

    fn from(_: AllocFailed<T>) -> ViewFault {
        ViewFault::NoMemory
    }
}
