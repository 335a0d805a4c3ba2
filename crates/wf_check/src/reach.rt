// Composite modules that are not reached from the start module.
ghost use Rattle.std.specs.Prelude.{IfOk, MatchOption};
ghost use Rattle.wf_check.specs.Improper.{IsReached, IsLeastWithout, OfAllComposite};

use crate::composite::least_unmarked;
use std::alloc::{AllocError, Global};
use wf_graph::reached;
use wf_spec::{Grammar, ModNo, making_graph};

/// The least composite module to which no list of bodies leads from the start module, or `None` where there is none. Fails only for want of memory.
///
/// Cost: at most two looks at each position of each body.
pub fn unreached(alloc: Global, g: &Grammar) -> Result<Option<ModNo>, AllocError>
    ensures { IfOk result (λ o. MatchOption o (OfAllComposite g.now.core (IsReached g.now.core)) (λ m. IsLeastWithout g.now.core (IsReached g.now.core) m.0)) }
{
    let graph = making_graph(alloc, g)?;
    let marks = reached(alloc, &graph, u32::from(g.start().0))?;
    Ok(least_unmarked(g, &marks))
}
