// Lifted grammars.
ghost use Rattle.std.specs.Prelude.{◌≡◌, ◌<◌, ◌≤◌, [], IfOk};
ghost use Rattle.wf_accept.specs.declared.fault.AcceptFault.TheVariants.{NoMemory};
ghost use Rattle.wf_check.specs.Proper.{IsRankingOf};
ghost use Rattle.wf_model.specs.Linear.{IsLinear};
ghost use Rattle.wf_model.specs.Proper.{IsProper};
ghost use Rattle.words_model.specs.Lifting.{lift, HasFewStates};

use crate::modules::lift_modules;
use crate::rules::lift_rules;
use std::alloc::{AllocError, Global};
use wf_accept::{AcceptFault, Accepted, accept};
use wf_spec::Grammar;

/// The lifted grammar, with no earlier versions.
fn lifted_grammar(alloc: Global, g: &Grammar, states: u8) -> Result<Grammar, AllocError>
    requires some { 0 < states }
    requires few { states ≤ 64 }
    requires ports { HasFewStates g.now.core states }
    ensures core { IfOk result (λ h. h.core ≡ lift g.now.core states) }
    ensures versions { IfOk result (λ h. h.versions ≡ []) }
{
    let modules = lift_modules(alloc, g.modules(), states)?;
    let rules = lift_rules(alloc, g.productions(), states)?;
    let start = g.start();
    let given = Vec::new(alloc);
    // At most 1,024 names are hashed, so that it does not matter by which key.
    Grammar::of_lists(alloc, 0, start, modules, rules, given)
}

/// The error that memory was refused, which is the only fault that is met.
fn want_of_memory(fault: &AcceptFault) -> AllocError
    requires { fault.now ≡ NoMemory }
{
    match fault {
        AcceptFault::NoMemory => AllocError,
        AcceptFault::NotProper(_) => unreachable!(),
        AcceptFault::NotLinear(_) => unreachable!(),
        AcceptFault::VersionChanged { .. } => unreachable!(),
    }
}

/// A grammar of which it is known that it is accepted, with its ranks and its cycles.
fn accept_known(alloc: Global, grammar: Grammar) -> Result<Accepted, AllocError>
    requires proper { IsProper grammar.core }
    requires linear { IsLinear grammar.core }
    requires versions { grammar.versions ≡ [] }
    ensures { IfOk result (λ a. a.grammar ≡ grammar) }
{
    match accept(alloc, grammar) {
        Ok(accepted) => Ok(accepted),
        Err(refused) => Err(want_of_memory(&refused.fault)),
    }
}

/// The lifted grammar, in which each port of an accepted grammar stands once for each of so many states.
///
/// Port `p` in state `s` has the number `p * states + s` and the name `ip-s` or `op-s`. Each edge, entry and exit stands once for each state and joins ports of that state. Modules and positions keep their names and numbers, and there are no given pairs and no earlier versions.
///
/// The ranks of the modules, their choices and the cycles are those of the grammar, as `lifted_tables_law` says. Fails only for want of memory.
///
/// Cost: linear in the ports, edges, entries and exits, each taken once for each state, and then that of `accept`.
pub fn lift(alloc: Global, accepted: &Accepted, states: u8) -> Result<Accepted, AllocError>
    requires some { 0 < states }
    requires few { states ≤ 64 }
    requires ports { HasFewStates accepted.now.grammar.core states }
    ensures core { IfOk result (λ l. l.grammar.core ≡ lift accepted.now.grammar.core states) }
    ensures versions { IfOk result (λ l. l.grammar.versions ≡ []) }
    ensures ranking { IfOk result (λ l. IsRankingOf l.grammar.core accepted.now.ranking) }
    ensures cycles { IfOk result (λ l. l.cycles ≡ accepted.now.cycles) }
{
    let g = accepted.grammar();
    let grammar = lifted_grammar(alloc, g, states)?;
    let lifted = accept_known(alloc, grammar)?;
    let _known = lifted.grammar();
    Ok(lifted)
}
