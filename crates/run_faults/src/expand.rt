// Why an expand event is refused.
ghost use Rattle.std.specs.Prelude.{◌≡◌, ℕ, true, List, length, is_some, IfSome, IfNone};
ghost use Rattle.wf_model.specs.declared.event.Event.{Event};
ghost use Rattle.wf_model.specs.declared.event.Event.TheVariants.{Expand};
ghost use Rattle.wf_model.specs.Run.{IsRun, made, names_of};
ghost use Rattle.wf_model.specs.Faults.{fault_of};
ghost use Rattle.run_faults.specs.Standing.{IsFound, Fits};
ghost use Rattle.run_faults.specs.Order.{HasFault, IsLeftToNames};

use crate::names::fault_of_names;
use name_text::are_short;
use wf_names::{HeldName, Names};
use wf_spec::{Grammar, ModNo, Name, ProdNo, RunFault};

/// An instance that is there: its module, and whether it is expanded.
#[derive(Clone, Copy, Drop)]
pub struct Found {
    pub module: ModNo,
    pub expanded: bool,
}

/// Why a run refuses to expand the instance of a name, whatever names are taken; None where only the names of new instances are left to try. There are `count` instances, and `found` is the instance of the name.
///
/// In order of trial: `NotStarted`, `UnknownInstance`, `UnknownProduction`, `WrongHead`, `AlreadyExpanded`, `PositionsWrong`, `NameBad`.
///
/// Cost: linear in the bytes of the names. No name is looked up.
pub fn fault_before_names(
    g: &Grammar,
    count: usize,
    found: Option<Found>,
    production: u64,
    names: &[Name],
) -> Option<RunFault>
    ensures first { IfSome result (HasFault g.now.core count found production names.now) }
    ensures left { IfNone result (IsLeftToNames g.now.core count found production names.now) }
    ensures there { IfNone result (is_some found ≡ true) }
    ensures fits { IfNone result (Fits g.now.core production names.now) }
{
    if count == 0 {
        return Some(RunFault::NotStarted);
    }
    let Some(instance) = found else {
        return Some(RunFault::UnknownInstance);
    };
    let productions = g.productions();
    if productions.len() as u64 <= production {
        return Some(RunFault::UnknownProduction);
    }
    let rule = g.production(ProdNo(production as u16));
    if instance.module != rule.head() {
        return Some(RunFault::WrongHead);
    }
    if instance.expanded {
        return Some(RunFault::AlreadyExpanded);
    }
    if names.len() != rule.positions().len() {
        return Some(RunFault::PositionsWrong);
    }
    if !are_short(names) {
        return Some(RunFault::NameBad);
    }
    None
}

/// Why a run of at most `most` instances refuses to expand the instance of a name; None where it takes the event. The table has the names of the instances, and `found` is the instance.
///
/// In order of trial: `NotStarted`, `UnknownInstance`, `UnknownProduction`, `WrongHead`, `AlreadyExpanded`, `PositionsWrong`, `NameBad`, `NameTwice`, `TooManyInstances`.
///
/// Cost: one look-up for each name of the event, which is also compared with the names before it in the event, at most 63.
pub fn expand_fault<K: HeldName>(
    g: &Grammar,
    most: u32,
    taken: &Names<K>,
    found: Option<Found>,
    production: u64,
    names: &[Name],
) -> Option<RunFault>
    ensures { (events : List Event) (name : List ℕ) → IsRun g.now.core g.now.core.start events →
        taken.now ≡ names_of (made g.now.core g.now.core.start events) → IsFound g.now.core events name found →
        result ≡ fault_of g.now.core most events (Expand name production names.now) }
{
    let count = taken.count();
    if let Some(fault) = fault_before_names(g, count, found, production, names) {
        return Some(fault);
    }
    fault_of_names(most, taken, names)
}
