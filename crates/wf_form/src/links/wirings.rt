// The rules on the links of all productions.
ghost use Rattle.std.specs.Prelude.{◌≡◌, ◌⊎◌, IfOk, IfErr, OnOk};
ghost use Rattle.wf_model.specs.Lists.{IsIn};
ghost use Rattle.wf_spec.specs.FewPorts.{HaveFewPorts};
ghost use Rattle.wf_spec.specs.FirstFaults.{each, AllHold, IsFirstFailing, IsFirstFault};
ghost use Rattle.wf_form.specs.Wiring.{wiring_rules, IsSmall, IsWithin, IsWiredAtMostOnce, IsWiredAtLeastOnce, IsWiredForward};
ghost use Rattle.wf_form.specs.declared.fault.FormFault.TheVariants.{NoMemory, PortLinkedTwice, PortUnlinked, BodyCycle};

use crate::fault::FormFault;
use crate::links::cycle::has_no_cycle;
use crate::links::linked::{is_linked_at_least_once, is_linked_at_most_once};
use crate::wiring::Wiring;
use std::alloc::{AllocError, Global};
use wf_spec::Module;

/// The first production of which a port has two links.
fn first_linked_twice(alloc: Global, wirings: &[Wiring]) -> Result<Option<usize>, AllocError>
    requires { (w : Wiring) → IsIn w wirings.now → IsSmall w }
    ensures { IfOk result (λ answer. IsFirstFailing (each wirings.now IsWiredAtMostOnce PortLinkedTwice) answer) }
{
    for (k, one) in wirings.iter().enumerate() {
        let linked = is_linked_at_most_once(alloc, one)?;
        if !linked {
            return Ok(Some(k));
        }
    }
    Ok(None)
}

/// The first production of which a port has no link, where none has two.
fn first_unlinked(
    alloc: Global,
    modules: &[Module],
    wirings: &[Wiring],
) -> Result<Option<usize>, AllocError>
    requires few_ports { HaveFewPorts modules.now }
    requires within { (w : Wiring) → IsIn w wirings.now → IsWithin modules.now w }
    requires once { (w : Wiring) → IsIn w wirings.now → IsWiredAtMostOnce w }
    ensures { IfOk result (λ answer. IsFirstFailing (each wirings.now (IsWiredAtLeastOnce modules.now) PortUnlinked) answer) }
{
    for (k, one) in wirings.iter().enumerate() {
        let linked = is_linked_at_least_once(alloc, modules, one)?;
        if !linked {
            return Ok(Some(k));
        }
    }
    Ok(None)
}

/// The first production of which edges lead from a position back to it.
fn first_cycle(alloc: Global, wirings: &[Wiring]) -> Result<Option<usize>, AllocError>
    requires { (w : Wiring) → IsIn w wirings.now → IsSmall w }
    ensures { IfOk result (λ answer. IsFirstFailing (each wirings.now IsWiredForward BodyCycle) answer) }
{
    for (k, one) in wirings.iter().enumerate() {
        let forward = has_no_cycle(alloc, one.positions.len(), &one.edges)?;
        if !forward {
            return Ok(Some(k));
        }
    }
    Ok(None)
}

/// Whether in each production each port has one link, and no edges lead back.
///
/// Errors: the fault of the first rule that is broken, at the first production, of `PortLinkedTwice`, `PortUnlinked` and `BodyCycle` in this order; `NoMemory` may come at any time.
///
/// Cost: for each production a few looks at each port and link, and, once each port has one link, for each position two at each edge.
pub fn check_wirings(alloc: Global, modules: &[Module], wirings: &[Wiring]) -> Result<(), FormFault>
    requires few_ports { HaveFewPorts modules.now }
    requires within { (w : Wiring) → IsIn w wirings.now → IsWithin modules.now w }
    ensures kept { OnOk result (AllHold (wiring_rules modules.now wirings.now)) }
    ensures refused { IfErr result (λ f. (f ≡ NoMemory) ⊎ IsFirstFault (wiring_rules modules.now wirings.now) f) }
{
    if let Some(k) = first_linked_twice(alloc, wirings)? {
        return Err(FormFault::PortLinkedTwice {
            production: k as u64,
        });
    }
    if let Some(k) = first_unlinked(alloc, modules, wirings)? {
        return Err(FormFault::PortUnlinked {
            production: k as u64,
        });
    }
    if let Some(k) = first_cycle(alloc, wirings)? {
        return Err(FormFault::BodyCycle {
            production: k as u64,
        });
    }
    Ok(())
}
