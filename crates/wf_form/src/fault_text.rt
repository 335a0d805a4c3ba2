// How a fault of parts is told.
ghost use Rattle.std.specs.Prelude.{◌≡◌};
ghost use Rattle.wf_form.specs.FaultText.{form_name, form_spot};

use crate::fault::{FormFault, Spot};

impl FormFault {
    /// The name of the fault in messages.
    pub fn name(self) -> &'static [u8]
        ensures { result.now ≡ form_name self }
    {
        match self {
            FormFault::NameBad { at: _ } => b"NameBad",
            FormFault::NameTwice { module: _ } => b"NameTwice",
            FormFault::PortTwice { module: _ } => b"PortTwice",
            FormFault::TooManyPorts { module: _ } => b"TooManyPorts",
            FormFault::TooManyModules => b"TooManyModules",
            FormFault::TooManyProductions => b"TooManyProductions",
            FormFault::UnknownModule { at: _ } => b"UnknownModule",
            FormFault::EmptyBody { production: _ } => b"EmptyBody",
            FormFault::BodyTooLong { production: _ } => b"BodyTooLong",
            FormFault::BodiesTooLarge => b"BodiesTooLarge",
            FormFault::PositionTwice { production: _ } => b"PositionTwice",
            FormFault::UnknownPort { at: _ } => b"UnknownPort",
            FormFault::PortLinkedTwice { production: _ } => b"PortLinkedTwice",
            FormFault::PortUnlinked { production: _ } => b"PortUnlinked",
            FormFault::BodyCycle { production: _ } => b"BodyCycle",
            FormFault::DepsOnComposite { deps: _ } => b"DepsOnComposite",
            FormFault::TooManyVersions => b"TooManyVersions",
            FormFault::VersionBad { version: _ } => b"VersionBad",
            FormFault::NoMemory => b"NoMemory",
        }
    }

    /// The part of a specification that the fault is about, if it is about one.
    pub fn spot(self) -> Option<Spot>
        ensures { result ≡ form_spot self }
    {
        match self {
            FormFault::NameBad { at } => Some(at),
            FormFault::NameTwice { module } => Some(Spot::Module(module)),
            FormFault::PortTwice { module } => Some(Spot::Module(module)),
            FormFault::TooManyPorts { module } => Some(Spot::Module(module)),
            FormFault::TooManyModules => None,
            FormFault::TooManyProductions => None,
            FormFault::UnknownModule { at } => Some(at),
            FormFault::EmptyBody { production } => Some(Spot::Production(production)),
            FormFault::BodyTooLong { production } => Some(Spot::Production(production)),
            FormFault::BodiesTooLarge => None,
            FormFault::PositionTwice { production } => Some(Spot::Production(production)),
            FormFault::UnknownPort { at } => Some(at),
            FormFault::PortLinkedTwice { production } => Some(Spot::Production(production)),
            FormFault::PortUnlinked { production } => Some(Spot::Production(production)),
            FormFault::BodyCycle { production } => Some(Spot::Production(production)),
            FormFault::DepsOnComposite { deps } => Some(Spot::DepsAt(deps)),
            FormFault::TooManyVersions => None,
            FormFault::VersionBad { version } => Some(Spot::Version(version)),
            FormFault::NoMemory => None,
        }
    }
}
