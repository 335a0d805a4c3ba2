// The cycle of unit productions that is told.
mod graph;
mod rule;
mod turns;

ghost use Rattle.std.specs.Prelude.{ℕ, List, map, IfOk, MatchOption};
ghost use Rattle.wf_check.specs.Improper.{IsUnitCycle, IsToldCycle};

use crate::unit::graph::unit_graph;
use crate::unit::rule::unit_rules;
use crate::unit::turns::first_turns;
use std::alloc::{AllocError, Global};
use wf_graph::{RowGraph, first_shortest};
use wf_spec::{Grammar, ProdNo, Seq};

/// Unit productions that lead from a module back to it, or `None` where there are none.
///
/// They begin at the least module that is on such a cycle; they are as few as lead from it back to it, and of these the first by the numbers of the productions.
///
/// Cost: a search of the unit productions for each module, and a pass over them for each production of the cycle. Fails only for want of memory.
pub fn unit_cycle(alloc: Global, g: &Grammar) -> Result<Option<Seq<ProdNo>>, AllocError>
    ensures { IfOk result (λ o. MatchOption o ((m : ℕ) (ps : List ℕ) → IsUnitCycle g.now.core m ps → ⊥) (λ ps. IsToldCycle g.now.core (map (λ p. p.0) ps))) }
{
    let modules = g.modules().len() as u16;
    let units = unit_rules(alloc, g)?;
    let rows = unit_graph(alloc, &units, usize::from(modules))?;
    let graph = RowGraph { rows: &rows };
    for m in 0..modules {
        let from = u32::from(m);
        if let Some(route) = first_shortest(alloc, &graph, from, from)? {
            let productions = first_turns(alloc, &units, from, &route)?;
            return Ok(Some(Seq::from_vec(productions)));
        }
    }
    Ok(None)
}
