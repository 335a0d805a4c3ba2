// How a fault of an event is told.
ghost use Rattle.std.specs.Prelude.{◌≡◌};
ghost use Rattle.run_faults.specs.FaultNames.{run_name};

use wf_model::RunFault;

/// The name of a fault of an event in messages.
pub fn fault_name(fault: RunFault) -> &'static [u8]
    ensures { result.now ≡ run_name fault }
{
    match fault {
        RunFault::NotStarted => b"NotStarted",
        RunFault::StartedTwice => b"StartedTwice",
        RunFault::UnknownInstance => b"UnknownInstance",
        RunFault::UnknownProduction => b"UnknownProduction",
        RunFault::WrongHead => b"WrongHead",
        RunFault::AlreadyExpanded => b"AlreadyExpanded",
        RunFault::PositionsWrong => b"PositionsWrong",
        RunFault::NameBad => b"NameBad",
        RunFault::NameTwice => b"NameTwice",
        RunFault::TooManyInstances => b"TooManyInstances",
        RunFault::NoMemory => b"NoMemory",
    }
}
