// The productions of each module.
ghost use Rattle.std.specs.Prelude.{◌≡◌, ◌<◌, ◌≤◌, [], IfOk, map, length, replicate};
ghost use Rattle.wf_model.specs.Grammar.{Production as ProductionSeen};
ghost use Rattle.wf_model.specs.Lists.{IsIn};
ghost use Rattle.wf_spec.specs.Tables.{numbers_in, places, AreByHead};

use crate::production::Production;
use crate::rule::Rule;
use std::alloc::{AllocError, Global};
use wf_model::ProdNo;

fn empty_lists(alloc: Global, count: usize) -> Result<Vec<Vec<ProdNo>>, AllocError>
    ensures { IfOk result (λ lists. numbers_in lists.items ≡ replicate count []) }
{
    let mut lists = Vec::new(alloc);
    for k in 0..count {
        lists.push(Vec::new(alloc))?;
    }
    Ok(lists)
}

/// The productions by their heads.
#[derive(Drop)]
pub struct ByHead {
    pub lists: Vec<Vec<ProdNo>>,
    pub places: Vec<u16>,
}

/// A list for each module of the productions that it heads, in order, and the place of each production in its list.
pub fn by_head(alloc: Global, modules: usize, rules: &[Rule]) -> Result<ByHead, AllocError>
    requires few { length rules.now ≤ 65536 }
    requires heads { (r : ProductionSeen) → IsIn r rules.now → r.head < modules }
    ensures lists { IfOk result (λ r. AreByHead modules rules.now (length rules.now) (numbers_in r.lists.items)) }
    ensures places { IfOk result (λ r. r.places.items ≡ places rules.now (length rules.now)) }
{
    let mut lists = empty_lists(alloc, modules)?;
    let mut places = Vec::new(alloc);
    for (k, rule) in rules.iter().enumerate() {
        let head = rule.head().0 as usize;
        let list = &mut lists[head];
        let place = list.len();
        places.push(place as u16)?;
        list.push(ProdNo(k as u16))?;
    }
    Ok(ByHead { lists, places })
}

/// The productions with their places as alternative numbers.
pub fn numbered(
    alloc: Global,
    rules: Vec<Rule>,
    places: &[u16],
) -> Result<Vec<Production>, AllocError>
    requires { length rules.items ≡ length places.now }
    ensures cores { IfOk result (λ ps. map (λ p. p.core) ps.items ≡ rules.items) }
    ensures alternatives { IfOk result (λ ps. map (λ p. p.alternative) ps.items ≡ places.now) }
{
    let mut list = Vec::new(alloc);
    for rule in rules {
        let place = places[list.len()];
        list.push(Production::of_rule(rule, place))?;
    }
    Ok(list)
}
