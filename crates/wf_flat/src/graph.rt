// The links of the instances of a run.
ghost use Rattle.std.specs.Prelude.{◌≡◌, ◌<◌, ◌≤◌, ◌==◌, ◌++◌, ◌∷◌, [], length, map, OnOk, cond};
ghost use Rattle.std.specs.Int.{bit_at};
ghost use Rattle.wf_model.specs.Meaning.{inner_of, edge_of};
ghost use Rattle.wf_flat.specs.Table.{IsTableOf};
ghost use Rattle.wf_flat.specs.Graph.{row_links, matrix_links, edge_at, entries_at, exits_at, wiring_at, pairs_at, links_at, IsMadeFor};

use crate::seen::is_marked;
use crate::table::PlainRun;
use std::alloc::AllocError;
use wf_spec::{Deps, Edge, Grammar, Inner, ModNo, PortNo, Production, Side};

/// A port of an instance.
#[derive(Clone, Copy, Debug, PartialEq, Eq, Drop)]
pub struct Port {
    pub instance: u32,
    pub side: Side,
    pub port: PortNo,
}

/// A link from a port to a port.
#[derive(Clone, Copy, Debug, PartialEq, Eq, Drop)]
pub struct Link {
    pub from: Port,
    pub to: Port,
}

fn input(instance: u32, port: u8) -> Port
    ensures { result ≡ record { instance = instance; side = Side.Input; port = record { 0 = port } } }
{
    Port {
        instance,
        side: Side::Input,
        port: PortNo(port),
    }
}

fn output(instance: u32, port: u8) -> Port
    ensures { result ≡ record { instance = instance; side = Side.Output; port = record { 0 = port } } }
{
    Port {
        instance,
        side: Side::Output,
        port: PortNo(port),
    }
}

/// Whether a row has the bit of a column.
fn has_bit(row: u64, column: u8) -> bool
    requires { column < 64 }
    ensures { result ≡ (bit_at row column == 1) }
{
    (row >> column) & 1 == 1
}

/// Adds a link where the test holds.
fn add_if(links: &mut Vec<Link>, test: bool, link: Link) -> Result<(), AllocError>
    ensures { OnOk result (links.new.items ≡ links.old.items ++ cond test (link ∷ []) []) }
{
    if test {
        links.push(link)?;
    }
    Ok(())
}

/// Adds the pairs of one row.
fn add_row(
    links: &mut Vec<Link>,
    instance: u32,
    i: u8,
    row: u64,
    outputs: u8,
) -> Result<(), AllocError>
    requires { outputs ≤ 64 }
    ensures { OnOk result (links.new.items ≡ links.old.items ++ row_links instance i row 0 outputs) }
{
    for o in 0..outputs {
        let link = Link {
            from: input(instance, i),
            to: output(instance, o),
        };
        add_if(links, has_bit(row, o), link)?;
    }
    Ok(())
}

/// Adds the pairs of a matrix.
fn add_rows(
    links: &mut Vec<Link>,
    instance: u32,
    rows: &[u64],
    inputs: u8,
    outputs: u8,
) -> Result<(), AllocError>
    requires few_outputs { outputs ≤ 64 }
    requires one_each { inputs ≤ length rows.now }
    ensures { OnOk result (links.new.items ≡ links.old.items ++ matrix_links instance rows.now outputs 0 inputs) }
{
    for i in 0..inputs {
        add_row(links, instance, i, rows[i as usize], outputs)?;
    }
    Ok(())
}

/// Adds the edges of a body, whose positions are the instances from the first child on.
fn add_edges(links: &mut Vec<Link>, first: u32, edges: &[Edge]) -> Result<(), AllocError>
    ensures { OnOk result (links.new.items ≡ links.old.items ++ map (edge_at first) (map edge_of edges.now)) }
{
    for e in edges {
        links.push(Link {
            from: output(first.wrapping_add(u32::from(e.from.pos.0)), e.from.port.0),
            to: input(first.wrapping_add(u32::from(e.to.pos.0)), e.to.port.0),
        })?;
    }
    Ok(())
}

/// Adds the entries of a body.
fn add_entries(
    links: &mut Vec<Link>,
    instance: u32,
    first: u32,
    entries: &[Inner],
) -> Result<(), AllocError>
    requires { length entries.now ≤ 64 }
    ensures { OnOk result (links.new.items ≡ links.old.items ++ entries_at instance first 0 (map inner_of entries.now)) }
{
    for (k, i) in entries.iter().enumerate() {
        links.push(Link {
            from: input(instance, k as u8),
            to: input(first.wrapping_add(u32::from(i.pos.0)), i.port.0),
        })?;
    }
    Ok(())
}

/// Adds the exits of a body.
fn add_exits(
    links: &mut Vec<Link>,
    instance: u32,
    first: u32,
    exits: &[Inner],
) -> Result<(), AllocError>
    requires { length exits.now ≤ 64 }
    ensures { OnOk result (links.new.items ≡ links.old.items ++ exits_at instance first 0 (map inner_of exits.now)) }
{
    for (k, i) in exits.iter().enumerate() {
        links.push(Link {
            from: output(first.wrapping_add(u32::from(i.pos.0)), i.port.0),
            to: output(instance, k as u8),
        })?;
    }
    Ok(())
}

/// Adds the edges, entries and exits of an instance that was expanded.
pub fn add_wiring(
    links: &mut Vec<Link>,
    instance: u32,
    first: u32,
    rule: &Production,
) -> Result<(), AllocError>
    requires few_entries { length rule.now.core.entries ≤ 64 }
    requires few_exits { length rule.now.core.exits ≤ 64 }
    ensures { OnOk result (links.new.items ≡ links.old.items ++ wiring_at instance first rule.now.core) }
{
    add_edges(links, first, rule.edges())?;
    add_entries(links, instance, first, rule.entries())?;
    add_exits(links, instance, first, rule.exits())?;
    Ok(())
}

/// Adds the pairs of an instance that is not open.
fn add_pairs(
    links: &mut Vec<Link>,
    g: &Grammar,
    instance: u32,
    m: ModNo,
    leaf: &Deps,
) -> Result<(), AllocError>
    requires in_range { m.0 < length g.now.core.modules }
    requires made_for { IsMadeFor g.now.core leaf.now }
    ensures { OnOk result (links.new.items ≡ links.old.items ++ pairs_at g.now.core leaf.now m.0 instance) }
{
    let module = &g.modules()[m.0 as usize];
    let inputs = module.inputs().len();
    let outputs = module.outputs().len();
    if let Some(rows) = leaf.rows(m) {
        add_rows(links, instance, rows, inputs as u8, outputs as u8)?;
    }
    Ok(())
}

/// Adds the links of the instance of a number, where it is seen. An instance that is expanded in the run and of a marked module has the edges, entries and exits of its production. Any other has the pairs of `leaf`, and none where `leaf` has no rows for its module.
///
/// Cost: linear in the links. Fails only for want of memory.
pub fn add_links(
    links: &mut Vec<Link>,
    g: &Grammar,
    run: &PlainRun,
    k: u32,
    expanded: &[bool],
    leaf: &Deps,
) -> Result<(), AllocError>
    requires run { IsTableOf g.now.core run.now }
    requires there { k < length run.now.instances }
    requires made_for { IsMadeFor g.now.core leaf.now }
    ensures { OnOk result (links.new.items ≡ links.old.items ++ links_at g.now.core expanded.now leaf.now run.now.instances k) }
{
    // A grammar is well-formed: the production of an instance is there.
    let _formed = g.start();
    let x = &run.instances()[k as usize];
    if !is_marked(expanded, x.module) {
        add_pairs(links, g, k, x.module, leaf)?;
        return Ok(());
    }
    let Some(p) = x.production else {
        add_pairs(links, g, k, x.module, leaf)?;
        return Ok(());
    };
    add_wiring(links, k, x.first_child, g.production(p))?;
    Ok(())
}
