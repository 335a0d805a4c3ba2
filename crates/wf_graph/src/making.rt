// Graphs of numbered vertices, made edge by edge.
ghost use Rattle.std.specs.Prelude.{◌≡◌, ◌<◌, ℕ, length, IfOk, OnOk};
ghost use Rattle.wf_graph.specs.Graph.{HasEdge};
ghost use Rattle.wf_graph.specs.OneMore.{HasOneMore};

use std::alloc::{AllocError, Global};

/// So many vertices, and no edge. Fails only for want of memory.
pub fn no_edges(alloc: Global, count: usize) -> Result<Vec<Vec<u32>>, AllocError>
    ensures count { IfOk result (λ graph. length graph.items ≡ count) }
    ensures none { IfOk result (λ graph. (a b : ℕ) → HasEdge graph.items a b → ⊥) }
{
    let mut graph = Vec::new(alloc);
    for k in 0..count {
        graph.push(Vec::new(alloc))?;
    }
    Ok(graph)
}

/// Adds an edge. Fails only for want of memory.
pub fn add_edge(graph: &mut Vec<Vec<u32>>, from: usize, to: u32) -> Result<(), AllocError>
    requires { from < length graph.old.items }
    ensures count { OnOk result (length graph.new.items ≡ length graph.old.items) }
    ensures added { OnOk result (HasOneMore graph.old.items from to graph.new.items) }
{
    let list = &mut graph[from];
    list.push(to)?;
    Ok(())
}
