// Where the lines of a file halt, as the stop of a command.
ghost use Rattle.std.specs.Prelude.{◌≡◌};
ghost use Rattle.wf_message.specs.Endings.{end_of};
ghost use Rattle.wf_stage.specs.LineEnds.{end_of_halt};

use wf_lines::Halt;
use wf_message::{Place, Refusal, Stop, refused_line};

/// The stop at which the lines of a file halt, whatever takes them.
pub fn stop_at(place: Place, halt: Halt) -> Stop
    ensures { end_of result ≡ end_of_halt place.word.now halt }
{
    match halt {
        Halt::LineTooLong { line } => refused_line(
            place,
            line,
            Refusal::Named {
                name: b"LineTooLong",
            },
        ),
        Halt::FileTooLong { line } => refused_line(
            place,
            line,
            Refusal::Named {
                name: b"FileTooLong",
            },
        ),
        Halt::ReadFault => Stop::ReadFault { place },
        Halt::WriteFault => Stop::WriteFault,
    }
}
