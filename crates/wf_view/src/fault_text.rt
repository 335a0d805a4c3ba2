// How a fault of the parts of a view is told.
ghost use Rattle.std.specs.Prelude.{◌≡◌};
ghost use Rattle.wf_view.specs.FaultText.{view_name, view_spot};

use crate::fault::{ViewFault, ViewSpot};

impl ViewFault {
    /// The name of the fault in messages.
    pub fn name(self) -> &'static [u8]
        ensures { result.now ≡ view_name self }
    {
        match self {
            ViewFault::UnknownModule { at: _ } => b"UnknownModule",
            ViewFault::NotComposite { expand: _ } => b"NotComposite",
            ViewFault::DepsOnExpanded { deps: _ } => b"DepsOnExpanded",
            ViewFault::UnknownPort { deps: _ } => b"UnknownPort",
            ViewFault::ModuleTwice { at: _ } => b"ModuleTwice",
            ViewFault::NoMemory => b"NoMemory",
        }
    }

    /// The place in a view that the fault is about, if it is about one.
    pub fn spot(self) -> Option<ViewSpot>
        ensures { result ≡ view_spot self }
    {
        match self {
            ViewFault::UnknownModule { at } => Some(at),
            ViewFault::NotComposite { expand } => Some(ViewSpot::ExpandAt(expand)),
            ViewFault::DepsOnExpanded { deps } => Some(ViewSpot::DepsAt(deps)),
            ViewFault::UnknownPort { deps } => Some(ViewSpot::DepsAt(deps)),
            ViewFault::ModuleTwice { at } => Some(at),
            ViewFault::NoMemory => None,
        }
    }
}
