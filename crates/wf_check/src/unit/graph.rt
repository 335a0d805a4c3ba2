// The graph of unit productions.
ghost use Rattle.std.specs.Prelude.{◌≡◌, length, IfOk};
ghost use Rattle.wf_check.specs.UnitRules.{AreBelow};
ghost use Rattle.wf_check.specs.UnitPaths.{IsGraphOf};

use crate::unit::rule::UnitRule;
use std::alloc::{AllocError, Global};
use wf_graph::no_edges;

/// The graph whose edges are unit productions, with a vertex for each of so many modules. The edges of a module stand in the order of its productions. Fails only for want of memory.
pub fn unit_graph(
    alloc: Global,
    units: &[UnitRule],
    modules: usize,
) -> Result<Vec<Vec<u32>>, AllocError>
    requires { AreBelow modules units.now }
    ensures count { IfOk result (λ graph. length graph.items ≡ modules) }
    ensures edges { IfOk result (λ graph. IsGraphOf units.now graph.items) }
{
    let mut graph = no_edges(alloc, modules)?;
    for u in units {
        let list = &mut graph[u.head.0 as usize];
        list.push(u32::from(u.target.0))?;
    }
    Ok(graph)
}
