// The rules on links, and on the pairs of modules.
mod atomic;
mod counts;
mod cycle;
mod ends;
mod inner;
mod linked;
pub mod numbers;
mod pairs;
pub mod places;
mod tables;
mod wirings;

ghost use Rattle.std.specs.Prelude.{◌≡◌, ◌⊎◌, IfOk, IfErr, OnOk};
ghost use Rattle.wf_form.specs.Forming.{modules_of};
ghost use Rattle.wf_spec.specs.Naming.{names_of};
ghost use Rattle.wf_form.specs.Rules.{first_rules, body_rules, link_rules, link_rules_of};
ghost use Rattle.wf_spec.specs.FirstFaults.{AllHold, IsFirstFault};
ghost use Rattle.wf_form.specs.Wiring.{AreReady, AreWiringsOf};
ghost use Rattle.wf_form.specs.declared.fault.FormFault.TheVariants.{NoMemory};

use crate::fault::{FormFault, Spot};
use crate::links::atomic::first_on_composite;
use crate::links::pairs::first_unknown_pair;
use crate::links::wirings::check_wirings;
use crate::wiring::{Wiring, wirings_from};
use std::alloc::Global;
use wf_model::{DepsPart, Parts, ProdPart};
use wf_names::Names;
use wf_spec::Module;

/// The links of all productions by numbers, where the rules on links and pairs hold.
fn wired_from(
    alloc: Global,
    key: u64,
    names: &Names,
    modules: &[Module],
    productions: &[ProdPart],
    deps: &[DepsPart],
) -> Result<Vec<Wiring>, FormFault>
    requires { AreReady names.now modules.now productions.now deps.now }
    ensures kept { OnOk result (AllHold (link_rules_of modules.now productions.now deps.now)) }
    ensures wirings { IfOk result (λ ws. AreWiringsOf modules.now productions.now ws.items) }
    ensures refused { IfErr result (λ f. (f ≡ NoMemory) ⊎ IsFirstFault (link_rules_of modules.now productions.now deps.now) f) }
{
    let wirings = wirings_from(alloc, names, modules, productions)?;
    if let Some(k) = first_unknown_pair(names, modules, deps) {
        return Err(FormFault::UnknownPort {
            at: Spot::DepsAt(k as u64),
        });
    }
    check_wirings(alloc, modules, &wirings)?;
    if let Some(k) = first_on_composite(alloc, key, productions, deps)? {
        return Err(FormFault::DepsOnComposite { deps: k as u64 });
    }
    Ok(wirings)
}

/// The links of all productions by numbers, in order, where the rules on links and pairs hold.
///
/// `names` are those of `modules`, which are those of the parts, and the rules of `check_modules` and `check_bodies` hold.
///
/// Errors: the fault of the first rule that is broken, at the first place, of `UnknownPort` (at productions, then at deps parts), `PortLinkedTwice`, `PortUnlinked`, `BodyCycle` and `DepsOnComposite` in this order; `NoMemory` may come at any time.
///
/// Cost: for each link and each pair a look at no more than 64 positions and 128 ports; for each head, position and deps part a look-up by hashing; and, once each port has one link, for each position of a body two looks at each of its edges.
pub fn wired(
    alloc: Global,
    key: u64,
    names: &Names,
    modules: &[Module],
    parts: &Parts,
) -> Result<Vec<Wiring>, FormFault>
    requires modules { modules.now ≡ modules_of parts.now }
    requires names { names.now ≡ names_of modules.now }
    requires first { AllHold (first_rules parts.now) }
    requires bodies { AllHold (body_rules parts.now) }
    ensures kept { OnOk result (AllHold (link_rules parts.now)) }
    ensures wirings { IfOk result (λ ws. AreWiringsOf modules.now parts.now.productions ws.items) }
    ensures refused { IfErr result (λ f. (f ≡ NoMemory) ⊎ IsFirstFault (link_rules parts.now) f) }
{
    wired_from(
        alloc,
        key,
        names,
        modules,
        parts.productions.items(),
        parts.deps.items(),
    )
}
