// The unit productions of a grammar.
ghost use Rattle.std.specs.Prelude.{◌≡◌, ◌<◌, length, IfOk};
ghost use Rattle.wf_check.specs.UnitRules.{unit_rule_at, unit_rules_of};

use std::alloc::{AllocError, Global};
use wf_spec::{Grammar, ModNo, ProdNo};

/// A unit production: its body has one position, of the target.
#[derive(Clone, Copy)]
pub struct UnitRule {
    pub number: ProdNo,
    pub head: ModNo,
    pub target: ModNo,
}

/// The production of a number, if it is a unit production.
fn unit_rule(g: &Grammar, p: ProdNo) -> Option<UnitRule>
    requires { p.0 < length g.now.core.productions }
    ensures { result ≡ unit_rule_at g.now.core p.0 }
{
    let rule = g.production(p);
    match rule.positions() {
        [position] => Some(UnitRule {
            number: p,
            head: rule.head(),
            target: position.module,
        }),
        _ => None,
    }
}

/// The unit productions, by number. Fails only for want of memory.
pub fn unit_rules(alloc: Global, g: &Grammar) -> Result<Vec<UnitRule>, AllocError>
    ensures { IfOk result (λ units. units.items ≡ unit_rules_of g.now.core) }
{
    let mut units = Vec::new(alloc);
    let count = g.productions().len() as u16;
    for p in 0..count {
        if let Some(u) = unit_rule(g, ProdNo(p)) {
            units.push(u)?;
        }
    }
    Ok(units)
}
