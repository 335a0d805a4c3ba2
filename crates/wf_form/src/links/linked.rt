// Whether the ports of a body and of its head have one link each.
ghost use Rattle.std.specs.Prelude.{◌<◌, ◌↔◌, ℕ, length, IfOk, IsTrue};
ghost use Rattle.wf_model.specs.Lists.{IsIn, AllDiffer};
ghost use Rattle.wf_spec.specs.FewPorts.{HasFewPorts, HaveFewPorts};
ghost use Rattle.wf_form.specs.Wiring.{fed_by, used_by, entered_by, left_by, IsSmall, IsWithin, IsWiredAtMostOnce, IsWiredAtLeastOnce};
ghost use Rattle.wf_form.specs.Numbers.{ArePositionsMet, IsHeadMet};

use crate::links::counts::{input_counts, output_counts};
use crate::links::ends::{entered, left, sources, targets};
use crate::links::tables::{are_met, differ};
use crate::wiring::Wiring;
use std::alloc::{AllocError, Global};
use wf_spec::Module;

/// Whether no port of a position has two links.
fn positions_differ(alloc: Global, one: &Wiring) -> Result<bool, AllocError>
    requires { IsSmall one.now }
    ensures { IfOk result (λ b. IsTrue b ↔ (AllDiffer (fed_by one.now) × AllDiffer (used_by one.now))) }
{
    let places = one.positions.len();
    let to = targets(alloc, one)?;
    let fed = differ(alloc, places, &to)?;
    if !fed {
        return Ok(false);
    }
    let from = sources(alloc, one)?;
    let used = differ(alloc, places, &from)?;
    Ok(used)
}

/// Whether no port of the head has two links.
fn heads_differ(alloc: Global, one: &Wiring) -> Result<bool, AllocError>
    requires { IsSmall one.now }
    ensures { IfOk result (λ b. IsTrue b ↔ (AllDiffer (entered_by one.now) × AllDiffer (left_by one.now))) }
{
    let inputs = entered(alloc, one)?;
    let fed = differ(alloc, 1, &inputs)?;
    if !fed {
        return Ok(false);
    }
    let outputs = left(alloc, one)?;
    let used = differ(alloc, 1, &outputs)?;
    Ok(used)
}

/// Whether no port has two links.
///
/// Cost: a look at each link, and a flag for each of 64 ports a position.
pub fn is_linked_at_most_once(alloc: Global, one: &Wiring) -> Result<bool, AllocError>
    requires { IsSmall one.now }
    ensures { IfOk result (λ b. IsTrue b ↔ IsWiredAtMostOnce one.now) }
{
    let inside = positions_differ(alloc, one)?;
    if !inside {
        return Ok(false);
    }
    let outside = heads_differ(alloc, one)?;
    Ok(outside)
}

/// Whether each port of a position has a link.
fn positions_are_met(alloc: Global, modules: &[Module], one: &Wiring) -> Result<bool, AllocError>
    requires few_ports { HaveFewPorts modules.now }
    requires within { IsWithin modules.now one.now }
    requires once { IsWiredAtMostOnce one.now }
    ensures { IfOk result (λ b. IsTrue b ↔ ArePositionsMet modules.now one.now) }
{
    let inputs = input_counts(alloc, modules, &one.positions)?;
    let to = targets(alloc, one)?;
    let fed = are_met(alloc, &inputs, &to)?;
    if !fed {
        return Ok(false);
    }
    let outputs = output_counts(alloc, modules, &one.positions)?;
    let from = sources(alloc, one)?;
    let used = are_met(alloc, &outputs, &from)?;
    Ok(used)
}

/// Whether each port of the head has a link.
fn head_is_met(alloc: Global, head: &Module, one: &Wiring) -> Result<bool, AllocError>
    requires few_ports { HasFewPorts head.now }
    requires entered { (k : ℕ) → IsIn k (entered_by one.now) → k < length head.now.inputs }
    requires left { (k : ℕ) → IsIn k (left_by one.now) → k < length head.now.outputs }
    requires once { IsWiredAtMostOnce one.now }
    ensures { IfOk result (λ b. IsTrue b ↔ IsHeadMet head.now one.now) }
{
    let inputs = [head.inputs().len()];
    let to = entered(alloc, one)?;
    let fed = are_met(alloc, &inputs, &to)?;
    if !fed {
        return Ok(false);
    }
    let outputs = [head.outputs().len()];
    let from = left(alloc, one)?;
    let used = are_met(alloc, &outputs, &from)?;
    Ok(used)
}

/// Whether each port has a link, where none has two.
///
/// Cost: a look at each link and at each port, and a flag for each of 64 ports a position.
pub fn is_linked_at_least_once(
    alloc: Global,
    modules: &[Module],
    one: &Wiring,
) -> Result<bool, AllocError>
    requires few_ports { HaveFewPorts modules.now }
    requires within { IsWithin modules.now one.now }
    requires once { IsWiredAtMostOnce one.now }
    ensures { IfOk result (λ b. IsTrue b ↔ IsWiredAtLeastOnce modules.now one.now) }
{
    let inside = positions_are_met(alloc, modules, one)?;
    if !inside {
        return Ok(false);
    }
    let outside = head_is_met(alloc, &modules[one.head.0 as usize], one)?;
    Ok(outside)
}
