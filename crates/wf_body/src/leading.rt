// The edges of a body by the positions to which they lead.
ghost use Rattle.std.specs.Prelude.{◌≡◌, ◌<◌, ℕ, length, IfOk, OnOk};
ghost use Rattle.wf_model.specs.Grammar.{Edge as EdgeSeen, body_of};
ghost use Rattle.wf_model.specs.Lists.{IsIn};
ghost use Rattle.wf_model.specs.Meaning.{edge_of};
ghost use Rattle.wf_body.specs.Words.{AreLeading, HasOneMore, edges_in};

use std::alloc::{AllocError, Global};
use wf_spec::{Edge, Grammar, ProdNo};

/// So many lists without edges.
fn no_lists(alloc: Global, count: usize) -> Result<Vec<Vec<Edge>>, AllocError>
    ensures count { IfOk result (λ lists. length lists.items ≡ count) }
    ensures none { IfOk result (λ lists. (k : ℕ) (e : EdgeSeen) → IsIn e (edges_in lists.items k) → ⊥) }
{
    let mut lists = Vec::new(alloc);
    for k in 0..count {
        lists.push(Vec::new(alloc))?;
    }
    Ok(lists)
}

/// Adds an edge to the list of a place.
fn add_edge(lists: &mut Vec<Vec<Edge>>, at: usize, e: Edge) -> Result<(), AllocError>
    requires { at < length lists.old.items }
    ensures count { OnOk result (length lists.new.items ≡ length lists.old.items) }
    ensures added { OnOk result (HasOneMore lists.old.items at (edge_of e) lists.new.items) }
{
    let list = &mut lists[at];
    list.push(e)?;
    Ok(())
}

/// For each position the edges that lead to it.
///
/// Cost: one look at each edge. Fails only for want of memory.
pub fn leading(alloc: Global, g: &Grammar, p: ProdNo) -> Result<Vec<Vec<Edge>>, AllocError>
    requires { p.0 < length g.now.core.productions }
    ensures count { IfOk result (λ lists. length lists.items ≡ length (body_of g.now.core p.0)) }
    ensures leading { IfOk result (λ lists. (k : ℕ) → AreLeading g.now.core p.0 k (edges_in lists.items k)) }
{
    let count = g.production(p).positions().len();
    let edges = g.production(p).edges();
    let mut lists = no_lists(alloc, count)?;
    for e in edges {
        add_edge(&mut lists, e.to.pos.0 as usize, *e)?;
    }
    Ok(lists)
}
