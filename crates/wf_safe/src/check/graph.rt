// The graph of one body.
ghost use Rattle.std.specs.Prelude.{◌≡◌, ◌+◌, ◌*◌, ◌<◌, ◌≤◌, Some, cond, [], ◌∷◌, length, map, IfOk, OnOk};
ghost use Rattle.wf_model.specs.Grammar.{body_of, production_at};
ghost use Rattle.wf_model.specs.Links.{body_links, edge_link, entry_links, exit_links, pair_links, place_links};
ghost use Rattle.wf_model.specs.Meaning.{pairs_of};
ghost use Rattle.wf_body.specs.Matrices.{HasRows, HaveRows};
ghost use Rattle.wf_safe.specs.BodyGraph.{AddsLinks, IsGraphOf, link_of, matrix_links, port_of, row_links, vertex_of, vertices_of};

use crate::check::ports::{Port, input_port, output_port, vertex};
use bool_mat::has_column;
use std::alloc::{AllocError, Global};
use wf_graph::no_edges;
use wf_spec::{Deps, Grammar, ModNo, PortNo, PosNo, ProdNo};

/// Adds a link.
fn add_link(graph: &mut Vec<Vec<u32>>, from: Port, to: Port) -> Result<(), AllocError>
    requires { vertex_of (port_of from) < length graph.old.items }
    ensures { OnOk result (AddsLinks (link_of from to ∷ []) graph.old.items graph.new.items) }
{
    let list = &mut graph[vertex(from) as usize];
    list.push(vertex(to))?;
    Ok(())
}

/// Adds a link where the test holds.
fn add_if(graph: &mut Vec<Vec<u32>>, test: bool, from: Port, to: Port) -> Result<(), AllocError>
    requires { vertex_of (port_of from) < length graph.old.items }
    ensures { OnOk result (AddsLinks (cond test (link_of from to ∷ []) []) graph.old.items graph.new.items) }
{
    if test {
        add_link(graph, from, to)?;
    }
    Ok(())
}

/// Adds the edges of a body.
fn add_edges(graph: &mut Vec<Vec<u32>>, g: &Grammar, p: ProdNo) -> Result<(), AllocError>
    requires production { p.0 < length g.now.core.productions }
    requires vertices { length graph.old.items ≡ vertices_of g.now.core p.0 }
    ensures { OnOk result (AddsLinks (map edge_link (production_at g.now.core p.0).edges) graph.old.items graph.new.items) }
{
    let edges = g.production(p).edges();
    for e in edges {
        let from = output_port(Some(e.from.pos), e.from.port);
        let to = input_port(Some(e.to.pos), e.to.port);
        add_link(graph, from, to)?;
    }
    Ok(())
}

/// Adds the entries of a body.
fn add_entries(graph: &mut Vec<Vec<u32>>, g: &Grammar, p: ProdNo) -> Result<(), AllocError>
    requires production { p.0 < length g.now.core.productions }
    requires vertices { length graph.old.items ≡ vertices_of g.now.core p.0 }
    ensures { OnOk result (AddsLinks (entry_links 0 (production_at g.now.core p.0).entries) graph.old.items graph.new.items) }
{
    let entries = g.production(p).entries();
    for (k, inner) in entries.iter().enumerate() {
        let from = input_port(None, PortNo(k as u8));
        let to = input_port(Some(inner.pos), inner.port);
        add_link(graph, from, to)?;
    }
    Ok(())
}

/// Adds the exits of a body.
fn add_exits(graph: &mut Vec<Vec<u32>>, g: &Grammar, p: ProdNo) -> Result<(), AllocError>
    requires production { p.0 < length g.now.core.productions }
    requires vertices { length graph.old.items ≡ vertices_of g.now.core p.0 }
    ensures { OnOk result (AddsLinks (exit_links 0 (production_at g.now.core p.0).exits) graph.old.items graph.new.items) }
{
    let exits = g.production(p).exits();
    for (k, inner) in exits.iter().enumerate() {
        let from = output_port(Some(inner.pos), inner.port);
        let to = output_port(None, PortNo(k as u8));
        add_link(graph, from, to)?;
    }
    Ok(())
}

/// Adds the pairs of one input of a position.
fn add_row(
    graph: &mut Vec<Vec<u32>>,
    k: PosNo,
    i: PortNo,
    row: u64,
    outputs: u8,
) -> Result<(), AllocError>
    requires input { i.0 < 64 }
    requires outputs { outputs ≤ 64 }
    requires vertices { (k.0 + 2) * 128 ≤ length graph.old.items }
    ensures { OnOk result (AddsLinks (row_links k.0 i.0 row 0 outputs) graph.old.items graph.new.items) }
{
    for o in 0..outputs {
        let from = input_port(Some(k), i);
        let to = output_port(Some(k), PortNo(o));
        add_if(graph, has_column(row, u32::from(o)), from, to)?;
    }
    Ok(())
}

/// Adds the pairs of the rows of a position.
fn add_rows(
    graph: &mut Vec<Vec<u32>>,
    k: PosNo,
    rows: &[u64],
    outputs: u8,
) -> Result<(), AllocError>
    requires rows { length rows.now ≤ 64 }
    requires outputs { outputs ≤ 64 }
    requires vertices { (k.0 + 2) * 128 ≤ length graph.old.items }
    ensures { OnOk result (AddsLinks (matrix_links k.0 rows.now outputs 0 (length rows.now)) graph.old.items graph.new.items) }
{
    for (i, row) in rows.iter().enumerate() {
        add_row(graph, k, PortNo(i as u8), *row, outputs)?;
    }
    Ok(())
}

/// Adds the pairs of the module at a position.
fn add_pairs(
    graph: &mut Vec<Vec<u32>>,
    g: &Grammar,
    k: PosNo,
    m: ModNo,
    deps: &Deps,
) -> Result<(), AllocError>
    requires module_no { m.0 < length g.now.core.modules }
    requires rows { HasRows g.now.core deps.now m.0 }
    requires vertices { (k.0 + 2) * 128 ≤ length graph.old.items }
    ensures { OnOk result (AddsLinks (pair_links g.now.core (pairs_of deps.now) m.0 (Some k.0)) graph.old.items graph.new.items) }
{
    let outputs = g.output_count(m);
    if let Some(rows) = deps.rows(m) {
        add_rows(graph, k, rows, outputs)?;
    }
    Ok(())
}

/// Adds the pairs of the modules of a body.
fn add_places(
    graph: &mut Vec<Vec<u32>>,
    g: &Grammar,
    p: ProdNo,
    deps: &Deps,
) -> Result<(), AllocError>
    requires production { p.0 < length g.now.core.productions }
    requires rows { HaveRows g.now.core p.0 deps.now }
    requires vertices { length graph.old.items ≡ vertices_of g.now.core p.0 }
    ensures { OnOk result (AddsLinks (place_links g.now.core (pairs_of deps.now) 0 (body_of g.now.core p.0)) graph.old.items graph.new.items) }
{
    let positions = g.production(p).positions();
    for (k, position) in positions.iter().enumerate() {
        add_pairs(graph, g, PosNo(k as u8), position.module, deps)?;
    }
    Ok(())
}

/// The graph of a body whose positions have rows of pairs: 128 vertices for the head and for each position, of which the first 64 stand for the inputs, and an edge for each link.
///
/// Cost: one look at each edge, entry and exit, and for each position one at each bit of its rows. Fails only for want of memory.
pub fn body_graph(
    alloc: Global,
    g: &Grammar,
    p: ProdNo,
    deps: &Deps,
) -> Result<Vec<Vec<u32>>, AllocError>
    requires production { p.0 < length g.now.core.productions }
    requires rows { HaveRows g.now.core p.0 deps.now }
    ensures vertices { IfOk result (λ graph. length graph.items ≡ vertices_of g.now.core p.0) }
    ensures edges { IfOk result (λ graph. IsGraphOf (body_links g.now.core (pairs_of deps.now) p.0) graph.items) }
{
    let count = g.production(p).positions().len();
    let mut graph = no_edges(alloc, (count + 1) * 128)?;
    add_edges(&mut graph, g, p)?;
    add_entries(&mut graph, g, p)?;
    add_exits(&mut graph, g, p)?;
    add_places(&mut graph, g, p, deps)?;
    Ok(graph)
}
