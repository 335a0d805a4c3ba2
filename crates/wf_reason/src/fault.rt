// Why the lines of a chain end the program.
ghost use Rattle.std.specs.Prelude.{◌≡◌, codes};
ghost use Rattle.wf_message.specs.Endings.{end_of};
ghost use Rattle.wf_stage.specs.LineEnds.{end_of_fault};
ghost use Rattle.wf_reason.specs.Faults.{wrong_end};

use wf_lines::LinesFault;
use wf_message::{Place, Refusal, Stop, refused_line};
use wf_stage::stop_at;

/// A file with the lines of a chain, which is taken line by line.
pub const CHAIN: Place = Place { word: b"chain" };

/// The line of this number, from 1, has not the form of its turn: the name of an item, or `via`, a space and the name of an instance.
#[derive(Clone, Copy, Debug, PartialEq, Eq, Drop)]
pub struct LineWrong {
    pub line: u64,
}

impl LineWrong {
    /// The name of the fault.
    pub fn name(self) -> &'static [u8]
        ensures { result.now ≡ codes "LineWrong" }
    {
        b"LineWrong"
    }
}

/// The stop at a fault of the lines of a chain.
pub(crate) fn chain_stop(fault: LinesFault<LineWrong>) -> Stop
    ensures { end_of result ≡ end_of_fault wrong_end (codes "chain") fault }
{
    match fault {
        LinesFault::Stopped(wrong) => {
            refused_line(CHAIN, wrong.line, Refusal::Named { name: wrong.name() })
        }
        LinesFault::Halted(halt) => stop_at(CHAIN, halt),
    }
}
