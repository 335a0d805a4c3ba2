// Whether a grammar is accepted.
ghost use Rattle.std.specs.Prelude.{◌≡◌, ◌⊎◌, IfOk, IfErr, IfSome, IfNone};
ghost use Rattle.wf_model.specs.Linear.{IsLinear};
ghost use Rattle.wf_model.specs.Proper.{IsProper};
ghost use Rattle.wf_check.specs.Proper.{IsRankingOf};
ghost use Rattle.wf_recur.specs.Cycles.{AreCyclesOf};
ghost use Rattle.wf_accept.specs.Accepted.{AllKeepCycles};
ghost use Rattle.wf_accept.specs.Faults.{IsFaultOf};
ghost use Rattle.wf_accept.specs.declared.fault.AcceptFault.TheVariants.{NoMemory};

use crate::accepted::Accepted;
use crate::fault::{AcceptFault, Unaccepted};
use crate::versions::first_changed;
use std::alloc::Global;
use wf_check::{CheckFault, Proper, proper};
use wf_recur::{Cycles, Linear, RecurFault, cycles};
use wf_spec::Grammar;
use wf_version::VersionFault;

/// The fault of the versions of a strictly linear grammar, if there is one.
fn fault_of_versions(alloc: Global, g: Linear<'_>) -> Option<AcceptFault>
    ensures kept { IfNone result (AllKeepCycles g.entry.grammar.now) }
    ensures refused { IsProper g.entry.grammar.now.core → IfSome result (λ f. (f ≡ NoMemory) ⊎ IsFaultOf g.entry.grammar.now f) }
{
    match first_changed(alloc, g)? {
        (_, VersionFault::NoMemory) => Some(AcceptFault::NoMemory),
        (version, fault) => Some(AcceptFault::VersionChanged { version, fault }),
    }
}

/// A strictly linear grammar with its ranks and its cycles, if its versions keep their cycles.
fn with_versions(
    alloc: Global,
    grammar: Grammar,
    ranking: Proper,
    cycles: Cycles,
) -> Result<Accepted, Unaccepted>
    requires proper { IsProper grammar.core }
    requires ranking { IsRankingOf grammar.core ranking }
    requires linear { IsLinear grammar.core }
    requires cycles { AreCyclesOf grammar.core cycles }
    ensures accepted { IfOk result (λ a. a.grammar ≡ grammar) }
    ensures refused { IfErr result (λ u. (u.grammar ≡ grammar) × ((u.fault ≡ NoMemory) ⊎ IsFaultOf grammar u.fault)) }
{
    let _formed = grammar.start();
    let linear = Linear {
        grammar: &grammar,
        cycles: &cycles,
    };
    match fault_of_versions(alloc, linear) {
        None => Ok(Accepted::of_parts(grammar, ranking, cycles)),
        Some(fault) => Err(Unaccepted { grammar, fault }),
    }
}

/// A proper grammar with its ranks, if it is strictly linear and its versions keep their cycles.
fn with_cycles(alloc: Global, grammar: Grammar, ranking: Proper) -> Result<Accepted, Unaccepted>
    requires proper { IsProper grammar.core }
    requires ranking { IsRankingOf grammar.core ranking }
    ensures accepted { IfOk result (λ a. a.grammar ≡ grammar) }
    ensures refused { IfErr result (λ u. (u.grammar ≡ grammar) × ((u.fault ≡ NoMemory) ⊎ IsFaultOf grammar u.fault)) }
{
    let fault = match cycles(alloc, &grammar) {
        Ok(cycles) => return with_versions(alloc, grammar, ranking, cycles),
        Err(RecurFault::NoMemory) => AcceptFault::NoMemory,
        Err(fault) => AcceptFault::NotLinear(fault),
    };
    Err(Unaccepted { grammar, fault })
}

/// The grammar with its ranks and its cycles, if it is accepted. A grammar that is not comes back, with the first of its faults.
///
/// Errors, in this order: `NotProper`; `NotLinear`; `VersionChanged`. `NoMemory` may come at any time.
///
/// Cost: those of `proper` and of `cycles`, and for each version two looks at each module.
pub fn accept(alloc: Global, grammar: Grammar) -> Result<Accepted, Unaccepted>
    ensures accepted { IfOk result (λ a. a.grammar ≡ grammar) }
    ensures refused { IfErr result (λ u. (u.grammar ≡ grammar) × ((u.fault ≡ NoMemory) ⊎ IsFaultOf grammar u.fault)) }
{
    let fault = match proper(alloc, &grammar) {
        Ok(ranking) => return with_cycles(alloc, grammar, ranking),
        Err(CheckFault::NoMemory) => AcceptFault::NoMemory,
        Err(fault) => AcceptFault::NotProper(fault),
    };
    Err(Unaccepted { grammar, fault })
}
