// How a fault of an automaton is told.
ghost use Rattle.std.specs.Prelude.{◌≡◌};
ghost use Rattle.wf_automaton.specs.FaultText.{auto_member_word, auto_name, auto_spot};

use crate::fault::{AutoFault, AutoMember, AutoSpot};

impl AutoMember {
    /// The word of the member in messages.
    pub fn word(self) -> &'static [u8]
        ensures { result.now ≡ auto_member_word self }
    {
        match self {
            AutoMember::Top => b"top",
            AutoMember::States => b"states",
            AutoMember::Start => b"start",
            AutoMember::Accept => b"accept",
            AutoMember::Moves => b"moves",
        }
    }
}

impl AutoFault {
    /// The name of the fault in messages.
    pub fn name(self) -> &'static [u8]
        ensures { result.now ≡ auto_name self }
    {
        match self {
            AutoFault::NotJson => b"NotJson",
            AutoFault::WrongShape { member: _ } => b"WrongShape",
            AutoFault::StatesBad => b"StatesBad",
            AutoFault::StateBad { member: _ } => b"StateBad",
            AutoFault::UnknownModule { at: _ } => b"UnknownModule",
            AutoFault::MoveTwice { at: _ } => b"MoveTwice",
            AutoFault::TooManyStates => b"TooManyStates",
            AutoFault::NoMemory => b"NoMemory",
        }
    }

    /// What the fault is about, if it is about a member or a move.
    pub fn spot(self) -> Option<AutoSpot>
        ensures { result ≡ auto_spot self }
    {
        match self {
            AutoFault::NotJson => None,
            AutoFault::WrongShape { member } => Some(AutoSpot::InMember(member)),
            AutoFault::StatesBad => None,
            AutoFault::StateBad { member } => Some(AutoSpot::InMember(member)),
            AutoFault::UnknownModule { at } => Some(AutoSpot::MoveAt(at)),
            AutoFault::MoveTwice { at } => Some(AutoSpot::MoveAt(at)),
            AutoFault::TooManyStates => None,
            AutoFault::NoMemory => None,
        }
    }
}
