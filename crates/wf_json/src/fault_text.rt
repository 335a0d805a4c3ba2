// How a member that has not its form is told.
ghost use Rattle.std.specs.Prelude.{◌≡◌};
ghost use Rattle.wf_json.specs.FaultText.{member_word};

use crate::fault::Member;

impl Member {
    /// The word of the member in messages.
    pub fn word(self) -> &'static [u8]
        ensures { result.now ≡ member_word self }
    {
        match self {
            Member::Top => b"top",
            Member::Start => b"start",
            Member::Modules => b"modules",
            Member::Productions => b"productions",
            Member::DepsList => b"deps",
            Member::Versions => b"versions",
            Member::Expand => b"expand",
        }
    }
}
