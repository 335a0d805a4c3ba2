// Whether the edges of a body make a cycle.
ghost use Rattle.std.specs.Prelude.{◌≡◌, ◌<◌, ◌≤◌, ◌↔◌, ◌==◌, ◌&&◌, ℕ, false, length, get_or, map, IfOk, IsTrue};
ghost use Rattle.wf_model.specs.Lists.{IsIn, some};
ghost use Rattle.wf_model.specs.Grammar.{Edge as EdgeSeen};
ghost use Rattle.wf_model.specs.Meaning.{edge_of};
ghost use Rattle.wf_graph.specs.Graph.{HasEdge};
ghost use Rattle.wf_form.specs.Graphs.{IsJoined, IsAcyclic};

use std::alloc::{AllocError, Global};
use wf_graph::{add_edge, no_edges, reached};
use wf_model::Edge;

/// The graph of positions, each led to the positions that follow it.
fn followers(alloc: Global, count: usize, edges: &[Edge]) -> Result<Vec<Vec<u32>>, AllocError>
    requires { (e : EdgeSeen) → IsIn e (map edge_of edges.now) → e.from.position < count }
    ensures count { IfOk result (λ graph. length graph.items ≡ count) }
    ensures edges { IfOk result (λ graph. (a b : ℕ) → HasEdge graph.items a b ↔ IsJoined (map edge_of edges.now) a b) }
{
    let mut graph = no_edges(alloc, count)?;
    for e in edges {
        add_edge(&mut graph, e.from.pos.0 as usize, e.to.pos.0 as u32)?;
    }
    Ok(graph)
}

/// Whether an edge leads to a position from one of those that are marked.
fn leads_back(edges: &[Edge], position: usize, marks: &[bool]) -> bool
    requires { (e : EdgeSeen) → IsIn e (map edge_of edges.now) → e.from.position < length marks.now }
    ensures { result ≡ some (λ (e : EdgeSeen). (e.to.position == position) && get_or marks.now e.from.position false) (map edge_of edges.now) }
{
    for e in edges {
        if e.to.pos.0 as usize == position && marks[e.from.pos.0 as usize] {
            return true;
        }
    }
    false
}

/// Whether no edge leads to a position from which edges lead back.
///
/// Cost: for each position one look at each edge, at most twice.
pub fn has_no_cycle(alloc: Global, count: usize, edges: &[Edge]) -> Result<bool, AllocError>
    requires few { count ≤ 64 }
    requires from { (e : EdgeSeen) → IsIn e (map edge_of edges.now) → e.from.position < count }
    requires to { (e : EdgeSeen) → IsIn e (map edge_of edges.now) → e.to.position < count }
    ensures { IfOk result (λ b. IsTrue b ↔ IsAcyclic (map edge_of edges.now)) }
{
    let graph = followers(alloc, count, edges)?;
    for k in 0..count {
        let marks = reached(alloc, &graph, k as u32)?;
        if leads_back(edges, k, &marks) {
            return Ok(false);
        }
    }
    Ok(true)
}
