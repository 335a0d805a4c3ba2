// The refusals of faults that have a name, with a word or a number.
ghost use Rattle.std.specs.Prelude.{◌≡◌, ◌++◌, Some, codes};
ghost use Rattle.wf_json.specs.FaultText.{shape_text};
ghost use Rattle.wf_form.specs.FaultText.{spot_text, form_text};
ghost use Rattle.wf_view.specs.FaultText.{behind_view_spot, view_text};
ghost use Rattle.run_faults.specs.FaultNames.{run_name};
ghost use Rattle.label_file.specs.FaultText.{behind_store_spot, store_text};
ghost use Rattle.wf_message.specs.Refusals.{refusal_text};

use label_file::{StoreFault, StoreSpot};
use run_faults::fault_name;
use wf_form::{FormFault, Spot};
use wf_json::Member;
use wf_message::Refusal;
use wf_spec::RunFault;
use wf_view::{ViewFault, ViewSpot};

/// The refusal that a name tells alone.
pub fn named(name: &'static [u8]) -> Refusal
    ensures { refusal_text result ≡ name.now }
{
    Refusal::Named { name }
}

/// The refusal of a member that has not its form.
pub fn shape_refusal(member: Member) -> Refusal
    ensures { refusal_text result ≡ shape_text member }
{
    Refusal::Worded {
        name: b"WrongShape",
        word: member.word(),
    }
}

/// The refusal that names a fault and a part of a specification.
fn at_spot(name: &'static [u8], at: Spot) -> Refusal
    ensures { refusal_text result ≡ name.now ++ (codes " " ++ spot_text at) }
{
    match at {
        Spot::Start => Refusal::Worded {
            name,
            word: b"start",
        },
        Spot::Module(number) => Refusal::Numbered {
            name,
            part: b"module",
            number,
        },
        Spot::Production(number) => Refusal::Numbered {
            name,
            part: b"production",
            number,
        },
        Spot::DepsAt(number) => Refusal::Numbered {
            name,
            part: b"deps",
            number,
        },
        Spot::Version(number) => Refusal::Numbered {
            name,
            part: b"version",
            number,
        },
    }
}

/// The refusal of the parts of a specification.
pub fn form_refusal(fault: FormFault) -> Refusal
    ensures { refusal_text result ≡ form_text fault }
{
    match fault.spot() {
        Some(at) => at_spot(fault.name(), at),
        None => named(fault.name()),
    }
}

/// The refusal that names a fault and a place in a view.
fn at_view_spot(name: &'static [u8], at: ViewSpot) -> Refusal
    ensures { refusal_text result ≡ name.now ++ behind_view_spot (Some at) }
{
    match at {
        ViewSpot::ExpandAt(number) => Refusal::Numbered {
            name,
            part: b"expand",
            number,
        },
        ViewSpot::DepsAt(number) => Refusal::Numbered {
            name,
            part: b"deps",
            number,
        },
    }
}

/// The refusal of the parts of a view.
pub fn view_refusal(fault: ViewFault) -> Refusal
    ensures { refusal_text result ≡ view_text fault }
{
    match fault.spot() {
        Some(at) => at_view_spot(fault.name(), at),
        None => named(fault.name()),
    }
}

/// The refusal of an event.
pub fn run_refusal(fault: RunFault) -> Refusal
    ensures { refusal_text result ≡ run_name fault }
{
    named(fault_name(fault))
}

/// The refusal that names a fault and a place in a label file.
fn at_store_spot(name: &'static [u8], at: StoreSpot) -> Refusal
    ensures { refusal_text result ≡ name.now ++ behind_store_spot (Some at) }
{
    match at {
        StoreSpot::Offset(number) => Refusal::Numbered {
            name,
            part: b"offset",
            number,
        },
        StoreSpot::Entry(number) => Refusal::Numbered {
            name,
            part: b"entry",
            number: u64::from(number),
        },
    }
}

/// The refusal of a label file.
pub fn store_refusal(fault: StoreFault) -> Refusal
    ensures { refusal_text result ≡ store_text fault }
{
    match fault.spot() {
        Some(at) => at_store_spot(fault.name(), at),
        None => named(fault.name()),
    }
}
