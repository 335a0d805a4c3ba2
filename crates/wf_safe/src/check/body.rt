// The pairs that one body joins, by searches in its graph.
ghost use Rattle.std.specs.Prelude.{◌≡◌, ◌<◌, ◌≤◌, ◌↔◌, ◌^◌, ℕ, None, IsTrue, IfOk, true, false, length, get_or};
ghost use Rattle.std.specs.List.{All};
ghost use Rattle.wf_model.specs.Grammar.{head_of, inputs_of, outputs_of};
ghost use Rattle.wf_model.specs.Links.{input, output};
ghost use Rattle.wf_model.specs.Meaning.{pairs_of};
ghost use Rattle.wf_model.specs.Safe.{BodyJoins};
ghost use Rattle.bool_mat.specs.Matrix.{has};
ghost use Rattle.wf_graph.specs.Graph.{InRange, IsReached};
ghost use Rattle.wf_body.specs.Matrices.{HaveRows};
ghost use Rattle.wf_safe.specs.BodyGraph.{vertex_of};

use crate::check::graph::body_graph;
use crate::check::ports::{input_port, output_port, vertex};
use bool_mat::single;
use std::alloc::{AllocError, Global};
use wf_graph::reached;
use wf_spec::{Deps, Grammar, PortNo, ProdNo};

/// The row of the outputs of the head that are marked.
fn marked_outputs(marks: &[bool], outputs: u8) -> u64
    requires outputs { outputs ≤ 64 }
    requires marks { 128 ≤ length marks.now }
    ensures marked { (o : ℕ) → IsTrue (has result o) ↔ ((o < outputs) × (get_or marks.now (vertex_of (output None o)) false ≡ true)) }
    ensures within { result < 2 ^ outputs }
{
    let mut row = 0u64;
    for o in 0..outputs {
        let at = vertex(output_port(None, PortNo(o)));
        if marks[at as usize] {
            row |= single(u32::from(o));
        }
    }
    row
}

/// The row of the outputs of the head that are reached from one of its inputs.
fn joined_row(alloc: Global, graph: &[Vec<u32>], i: PortNo, outputs: u8) -> Result<u64, AllocError>
    requires in_range { InRange graph.now }
    requires vertices { 128 ≤ length graph.now }
    requires input { i.0 < 64 }
    requires outputs { outputs ≤ 64 }
    ensures joined { IfOk result (λ row. (o : ℕ) → o < outputs →
        IsTrue (has row o) ↔ IsReached graph.now (vertex_of (input None i.0)) (vertex_of (output None o))) }
    ensures within { IfOk result (λ row. row < 2 ^ outputs) }
{
    let marks = reached(alloc, graph, vertex(input_port(None, i)))?;
    Ok(marked_outputs(&marks, outputs))
}

/// The pairs of its head that a body joins where its positions have rows of pairs: a row for each input, in which bit `o` stands for output `o`.
///
/// Cost: the graph of the body is made once, with one look at each bit of the rows; for each input of the head one search in it, which has a mark for each vertex and looks at each link once at most. Fails only for want of memory.
pub fn joined_rows(
    alloc: Global,
    g: &Grammar,
    p: ProdNo,
    deps: &Deps,
) -> Result<Vec<u64>, AllocError>
    requires production { p.0 < length g.now.core.productions }
    requires rows { HaveRows g.now.core p.0 deps.now }
    ensures one_each { IfOk result (λ v. length v.items ≡ inputs_of g.now.core (head_of g.now.core p.0)) }
    ensures pairs { IfOk result (λ v. (i o : ℕ) → i < inputs_of g.now.core (head_of g.now.core p.0) → o < outputs_of g.now.core (head_of g.now.core p.0) →
        IsTrue (has (get_or v.items i 0) o) ↔ BodyJoins g.now.core (pairs_of deps.now) p.0 i o) }
    ensures no_more { IfOk result (λ v. All (λ r. r < 2 ^ outputs_of g.now.core (head_of g.now.core p.0)) v.items) }
{
    let graph = body_graph(alloc, g, p, deps)?;
    let head = g.production(p).head();
    let outputs = g.output_count(head);
    let mut rows = Vec::new(alloc);
    for i in 0..g.input_count(head) {
        let row = joined_row(alloc, &graph, PortNo(i), outputs)?;
        rows.push(row)?;
    }
    Ok(rows)
}
