// Why the lines of a file of events stop.
ghost use Rattle.std.specs.Prelude.{◌≡◌, ◌++◌, Some, codes, decimal};
ghost use Rattle.wf_message.specs.Endings.{end_of, Refused};
ghost use Rattle.wf_message.specs.Refusals.{refusal_text};
ghost use Rattle.wf_stage.specs.LineEnds.{end_of_fault};
ghost use Rattle.wf_inputs.specs.EventsEnd.{intake_end, event_end};
ghost use Rattle.wf_intake.specs.Intakes.{fault_told};

use crate::faults::{named, run_refusal};
use crate::kinds::EVENTS;
use wf_intake::IntakeFault;
use wf_lines::LinesFault;
use wf_message::{Refusal, Stop, refused_line};
use wf_stage::stop_at;

/// Why a line of EVENTS, or the end of them, stops the taking of reports. It is small, since each line may hand one on.
#[derive(Clone, Copy, Drop)]
pub enum EventStop {
    /// The line of this number is no JSON.
    NotJson { line: u64 },
    /// The line of this number has not the form of an event.
    WrongShape { line: u64 },
    /// A report is not taken.
    Report { fault: IntakeFault },
}

/// The stop at a line of events that is refused, by its number.
fn refused_event(number: u64, refusal: Refusal) -> Stop
    ensures { end_of result ≡ Refused (codes "events") (Some number) (refusal_text refusal) }
{
    refused_line(EVENTS, number, refusal)
}

/// The refusal of a report that contradicts the one of an earlier line.
fn conflict_with(earlier: u64) -> Refusal
    ensures { refusal_text result ≡ codes "Conflict" ++ (codes " " ++ (codes "with" ++ (codes " " ++ decimal earlier))) }
{
    Refusal::Numbered {
        name: b"Conflict",
        part: b"with",
        number: earlier,
    }
}

/// The stop at a report that is not taken.
fn report_stop(fault: IntakeFault) -> Stop
    ensures { end_of result ≡ intake_end (fault_told fault) }
{
    match fault {
        IntakeFault::Conflict { line, earlier } => refused_event(line, conflict_with(earlier)),
        IntakeFault::Refused { line, fault } => refused_event(line, run_refusal(fault)),
        IntakeFault::Orphan { line } => refused_event(line, named(b"Orphan")),
        IntakeFault::NoMemory => Stop::NoMemory,
    }
}

fn event_stop(stop: EventStop) -> Stop
    ensures { end_of result ≡ event_end stop }
{
    match stop {
        EventStop::NotJson { line } => refused_event(line, named(b"NotJson")),
        EventStop::WrongShape { line } => refused_event(line, named(b"WrongShape")),
        EventStop::Report { fault } => report_stop(fault),
    }
}

/// The stop that a fault of the lines of EVENTS is.
pub fn events_stop(fault: LinesFault<EventStop>) -> Stop
    ensures { end_of result ≡ end_of_fault event_end (codes "events") fault }
{
    match fault {
        LinesFault::Stopped(stop) => event_stop(stop),
        LinesFault::Halted(halt) => stop_at(EVENTS, halt),
    }
}
