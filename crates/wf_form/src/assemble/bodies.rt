// Productions from wirings.
ghost use Rattle.std.specs.Prelude.{◌≡◌, IfOk, map, length};
ghost use Rattle.wf_model.specs.Lists.{IsIn};
ghost use Rattle.wf_form.specs.Assembling.{AreRulesOf, IsRuleOf, IsSound};
ghost use Rattle.wf_form.specs.declared.wiring.Wiring.{Wiring as WiringSeen};

use crate::assemble::ends::{entries_by_port, exits_by_port};
use crate::wiring::Wiring;
use std::alloc::{AllocError, Global};
use wf_model::Seq;
use wf_spec::{Module, Rule};

fn rule_from(alloc: Global, modules: &[Module], wiring: Wiring) -> Result<Rule, AllocError>
    requires { IsSound modules.now wiring }
    ensures { IfOk result (λ r. IsRuleOf modules.now wiring r) }
{
    let Wiring {
        head,
        positions,
        edges,
        entries,
        exits,
    } = wiring;
    let m = &modules[head.0 as usize];
    let entries = entries_by_port(alloc, m.inputs().len(), &entries)?;
    let exits = exits_by_port(alloc, m.outputs().len(), &exits)?;
    Ok(Rule::new(
        head,
        Seq::from_vec(positions),
        Seq::from_vec(edges),
        Seq::from_vec(entries),
        Seq::from_vec(exits),
    ))
}

/// The productions of wirings.
pub fn rules_from(
    alloc: Global,
    modules: &[Module],
    wirings: Vec<Wiring>,
) -> Result<Vec<Rule>, AllocError>
    requires { (w : WiringSeen) → IsIn w wirings.items → IsSound modules.now w }
    ensures { IfOk result (λ rules. AreRulesOf modules.now wirings.items rules.items) }
{
    let mut rules = Vec::new(alloc);
    for wiring in wirings {
        let rule = rule_from(alloc, modules, wiring)?;
        rules.push(rule)?;
    }
    Ok(rules)
}
