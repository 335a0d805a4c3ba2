// Why a start event is refused.
ghost use Rattle.std.specs.Prelude.{◌≡◌, ℕ, List, not};
ghost use Rattle.wf_model.specs.Grammar.{Grammar};
ghost use Rattle.wf_model.specs.declared.event.Event.{Event};
ghost use Rattle.wf_model.specs.declared.event.Event.TheVariants.{Start};
ghost use Rattle.wf_model.specs.Faults.{is_nil, fault_of};

use name_text::is_short;
use wf_model::RunFault;

/// Why a run that has begun or not, of at most `most` instances, refuses a start event; None where it takes it.
///
/// In order of trial: `StartedTwice`, `NameBad`, `TooManyInstances`.
pub fn start_fault(begun: bool, most: u32, name: &[u8]) -> Option<RunFault>
    ensures { (g : Grammar) (events : List Event) → is_nil events ≡ not begun → result ≡ fault_of g most events (Start name.now) }
{
    if begun {
        return Some(RunFault::StartedTwice);
    }
    if !is_short(name) {
        return Some(RunFault::NameBad);
    }
    if most < 1 {
        return Some(RunFault::TooManyInstances);
    }
    None
}
