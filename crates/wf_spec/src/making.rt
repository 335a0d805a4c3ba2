// The modules that stand in the bodies of a module.
ghost use Rattle.std.specs.Prelude.{◌≡◌, ◌<◌, ◌↔◌, ◌++◌, ℕ, length, IfOk, OnOk};
ghost use Rattle.wf_model.specs.Lists.{IsIn};
ghost use Rattle.wf_model.specs.Proper.{Makes};
ghost use Rattle.wf_graph.specs.Graph.{HasEdge};
ghost use Rattle.wf_spec.specs.Bodies.{modules_at};

use crate::grammar::Grammar;
use crate::production::Production;
use std::alloc::{AllocError, Global};
use wf_model::ModNo;

/// Adds the modules of a body.
fn add_body(list: &mut Vec<u32>, rule: &Production) -> Result<(), AllocError>
    ensures { OnOk result (list.new.items ≡ list.old.items ++ modules_at rule.now.core.positions) }
{
    for q in rule.positions() {
        list.push(u32::from(q.module.0))?;
    }
    Ok(())
}

/// The modules of all bodies of a module. Fails only for want of memory.
///
/// Cost: a look at each position of each body of the module.
pub fn modules_made(alloc: Global, g: &Grammar, m: ModNo) -> Result<Vec<u32>, AllocError>
    requires { m.0 < length g.now.core.modules }
    ensures { IfOk result (λ list. (k : ℕ) → IsIn k list.items ↔ Makes g.now.core m.0 k) }
{
    let mut list = Vec::new(alloc);
    for p in g.alternatives(m) {
        add_body(&mut list, g.production(*p))?;
    }
    Ok(list)
}

/// A graph in which each module leads to the modules of its bodies. Fails only for want of memory.
///
/// Cost: a look at each position of each body.
pub fn making_graph(alloc: Global, g: &Grammar) -> Result<Vec<Vec<u32>>, AllocError>
    ensures count { IfOk result (λ graph. length graph.items ≡ length g.now.core.modules) }
    ensures edges { IfOk result (λ graph. (a b : ℕ) → HasEdge graph.items a b ↔ Makes g.now.core a b) }
{
    let mut graph = Vec::new(alloc);
    for m in 0..g.modules().len() {
        let list = modules_made(alloc, g, ModNo(m as u16))?;
        graph.push(list)?;
    }
    Ok(graph)
}
