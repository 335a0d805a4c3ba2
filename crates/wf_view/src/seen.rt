// The modules that a view lets a reader see.
ghost use Rattle.std.specs.Prelude.{◌≡◌, ◌<◌, ◌↔◌, ℕ, IfOk, false, get_or, length, true};
ghost use Rattle.wf_graph.specs.Graph.{HasEdge};
ghost use Rattle.wf_model.specs.Lists.{IsIn};
ghost use Rattle.wf_model.specs.Proper.{Makes};
ghost use Rattle.wf_view.specs.Tables.{AreSeen};

use std::alloc::{AllocError, Global};
use wf_graph::reached;
use wf_spec::{Grammar, ModNo, modules_made};

/// The modules of all bodies of a module that is expanded, and none of one that is not.
fn opened_from(alloc: Global, g: &Grammar, m: ModNo, expanded: bool) -> Result<Vec<u32>, AllocError>
    requires { m.0 < length g.now.core.modules }
    ensures { IfOk result (λ list. (k : ℕ) → IsIn k list.items ↔ ((expanded ≡ true) × Makes g.now.core m.0 k)) }
{
    if !expanded {
        return Ok(Vec::new(alloc));
    }
    modules_made(alloc, g, m)
}

/// A graph in which each expanded module leads to the modules of its bodies.
fn opening(alloc: Global, g: &Grammar, marks: &[bool]) -> Result<Vec<Vec<u32>>, AllocError>
    requires { length marks.now ≡ length g.now.core.modules }
    ensures count { IfOk result (λ graph. length graph.items ≡ length g.now.core.modules) }
    ensures edges { IfOk result (λ graph. (a b : ℕ) → HasEdge graph.items a b ↔ ((get_or marks.now a false ≡ true) × Makes g.now.core a b)) }
{
    let mut graph = Vec::new(alloc);
    for m in 0..g.modules().len() {
        let list = opened_from(alloc, g, ModNo(m as u16), marks[m])?;
        graph.push(list)?;
    }
    Ok(graph)
}

/// A flag for each module, that is set where instances of it may be seen.
///
/// Cost: at most two looks at each position of each body of an expanded module.
pub fn seen_marks(alloc: Global, g: &Grammar, marks: &[bool]) -> Result<Vec<bool>, AllocError>
    requires { length marks.now ≡ length g.now.core.modules }
    ensures one_each { IfOk result (λ seen. length seen.items ≡ length g.now.core.modules) }
    ensures seen { IfOk result (λ seen. AreSeen g.now.core marks.now seen.items) }
{
    let graph = opening(alloc, g, marks)?;
    reached(alloc, &graph, u32::from(g.start().0))
}
