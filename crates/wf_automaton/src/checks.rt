// The rules on the states of an automaton, and on the ports of modules in its states.
ghost use Rattle.std.specs.Prelude.{◌≡◌, ◌<◌, ◌≤◌, ◌*◌, ◌&&◌, nat_lt, nat_le, length, IfErr, OnOk, [], ◌∷◌};
ghost use Rattle.wf_spec.specs.FirstFaults.{AllHold, HoldsThroughout, IsFirstFault, IsFirstFailing, each};
ghost use Rattle.wf_automaton.specs.Rules.{state_rules, port_rule, IsMoveBelow};
ghost use Rattle.wf_automaton.specs.declared.fault.AutoMember.TheVariants.{Accept, Moves};
ghost use Rattle.wf_automaton.specs.declared.fault.AutoFault.TheVariants.{StateBad};

use crate::fault::{AutoFault, AutoMember};
use crate::parts::{AutoParts, MovePart};
use wf_spec::{Grammar, Module};

/// The first state that is not below the number of states.
fn first_state_past(states: u64, accept: &[u64]) -> Option<usize>
    ensures { IsFirstFailing (each accept.now (λ s. s < states) (λ k. StateBad Accept)) result }
{
    accept.iter().position(|s| !(*s < states))
}

/// Whether the states of a move are below the number of states.
fn is_below(states: u64, part: &MovePart) -> bool
    ensures { result ≡ nat_lt part.now.from states && nat_lt part.now.to states }
{
    part.from < states && part.to < states
}

/// The first move of which this does not hold.
fn first_move_past(states: u64, moves: &[MovePart]) -> Option<usize>
    ensures { IsFirstFailing (each moves.now (IsMoveBelow states) (λ k. StateBad Moves)) result }
{
    moves.iter().position(|part| !is_below(states, part))
}

/// The rules on states.
pub fn check_states(parts: &AutoParts) -> Result<(), AutoFault>
    ensures kept { OnOk result (AllHold (state_rules parts.now)) }
    ensures refused { IfErr result (IsFirstFault (state_rules parts.now)) }
{
    if parts.states == 0 || parts.states > 64 {
        return Err(AutoFault::StatesBad);
    }
    if parts.start >= parts.states {
        return Err(AutoFault::StateBad {
            member: AutoMember::Start,
        });
    }
    if let Some(_k) = first_state_past(parts.states, parts.accept.items()) {
        return Err(AutoFault::StateBad {
            member: AutoMember::Accept,
        });
    }
    if let Some(_k) = first_move_past(parts.states, parts.moves.items()) {
        return Err(AutoFault::StateBad {
            member: AutoMember::Moves,
        });
    }
    Ok(())
}

/// Whether a module has at most 64 ports on each side, with each in so many states.
fn has_few_ports(states: u8, one: &Module) -> bool
    requires few { states ≤ 64 }
    requires ports { (length one.now.inputs ≤ 64) × (length one.now.outputs ≤ 64) }
    ensures { result ≡ nat_le (length one.now.inputs * states) 64 && nat_le (length one.now.outputs * states) 64 }
{
    let states = states as usize;
    one.inputs().len() * states <= 64 && one.outputs().len() * states <= 64
}

/// The rule on the ports of modules.
pub fn check_ports(g: &Grammar, states: u8) -> Result<(), AutoFault>
    requires { states ≤ 64 }
    ensures kept { OnOk result (HoldsThroughout (port_rule g.now.core states)) }
    ensures refused { IfErr result (IsFirstFault (port_rule g.now.core states ∷ [])) }
{
    for one in g.modules() {
        if !has_few_ports(states, one) {
            return Err(AutoFault::TooManyStates);
        }
    }
    Ok(())
}
