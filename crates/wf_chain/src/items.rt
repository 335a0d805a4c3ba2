// The items of a run, in order of making.
ghost use Rattle.std.specs.Prelude.{◌≡◌, ◌<◌, ◌+◌, ◌^◌, ◌++◌, length, map, IfOk, OnOk};
ghost use Rattle.wf_model.specs.declared.body.Edge.{Edge as EdgeHeld};
ghost use Rattle.wf_model.specs.Lists.{IsIn, numbers_from};
ghost use Rattle.wf_model.specs.Meaning.{edge_of};
ghost use Rattle.wf_flat.specs.Table.{IsTableOf};
ghost use Rattle.wf_chain.specs.ItemLists.{input_held, output_held, root_held, edge_held, all_held, AreItemsOf};

use std::alloc::{AllocError, Global};
use wf_flat::{Item, Opened, PlainRun, Port};
use wf_spec::{Edge, Grammar, PortNo, Side};

/// Adds the items of the root's inputs.
fn add_inputs(items: &mut Vec<Item>, inputs: u8) -> Result<(), AllocError>
    ensures { OnOk result (items.new.items ≡ items.old.items ++ map input_held (numbers_from 0 inputs)) }
{
    for k in 0..inputs {
        items.push(Item {
            maker: None,
            from: None,
            to: Some(Port {
                instance: 0,
                side: Side::Input,
                port: PortNo(k),
            }),
        })?;
    }
    Ok(())
}

/// Adds the items of the root's outputs.
fn add_outputs(items: &mut Vec<Item>, outputs: u8) -> Result<(), AllocError>
    ensures { OnOk result (items.new.items ≡ items.old.items ++ map output_held (numbers_from 0 outputs)) }
{
    for k in 0..outputs {
        items.push(Item {
            maker: None,
            from: Some(Port {
                instance: 0,
                side: Side::Output,
                port: PortNo(k),
            }),
            to: None,
        })?;
    }
    Ok(())
}

/// Adds the items of the root's ports, if the run is started.
fn add_root(items: &mut Vec<Item>, g: &Grammar, run: &PlainRun) -> Result<(), AllocError>
    ensures { OnOk result (items.new.items ≡ items.old.items ++ root_held g.now.core run.now) }
{
    if run.instances().is_empty() {
        return Ok(());
    }
    add_inputs(items, g.input_count(g.start()))?;
    add_outputs(items, g.output_count(g.start()))?;
    Ok(())
}

/// Adds the items of the edges of an expansion.
fn add_edges(items: &mut Vec<Item>, opened: Opened, edges: &[Edge]) -> Result<(), AllocError>
    requires from { (e : EdgeHeld) → IsIn e edges.now → opened.first + e.from.pos.0 < 2 ^ 32 }
    requires to { (e : EdgeHeld) → IsIn e edges.now → opened.first + e.to.pos.0 < 2 ^ 32 }
    ensures { OnOk result (items.new.items ≡ items.old.items ++ map (λ e. edge_held opened (edge_of e)) edges.now) }
{
    for e in edges {
        items.push(Item {
            maker: Some(opened.instance),
            from: Some(Port {
                instance: opened.first + u32::from(e.from.pos.0),
                side: Side::Output,
                port: e.from.port,
            }),
            to: Some(Port {
                instance: opened.first + u32::from(e.to.pos.0),
                side: Side::Input,
                port: e.to.port,
            }),
        })?;
    }
    Ok(())
}

/// How many items the ports of the root are, if the run is started.
fn count_root(g: &Grammar, run: &PlainRun) -> usize
    ensures count { result ≡ length (root_held g.now.core run.now) }
    ensures few { result < 2 ^ 9 }
{
    if run.instances().is_empty() {
        return 0;
    }
    g.input_count(g.start()) as usize + g.output_count(g.start()) as usize
}

/// How many items a run has. 2^32 of them count as want of memory.
fn count_of(g: &Grammar, run: &PlainRun) -> Result<usize, AllocError>
    requires { IsTableOf g.now.core run.now }
    ensures count { IfOk result (λ count. count ≡ length (all_held g.now.core run.now)) }
    ensures few { IfOk result (λ count. count < 2 ^ 32) }
{
    // A grammar is well-formed, and the instances of an expansion are those of the run.
    let _formed = g.start();
    let _instances = run.instances();
    let mut count = count_root(g, run);
    for opened in run.order() {
        count += g.production(opened.production).edges().len();
        if count > u32::MAX as usize {
            return Err(AllocError);
        }
    }
    Ok(count)
}

/// The items of a run, in order of making: the inputs and outputs of the root, and for each expansion the edges of its body.
///
/// They are counted first, so that room for them is taken once. Cost: linear in them, 32 bytes for each. Fails only for want of memory; 2^32 items count as such.
pub fn items_of(alloc: Global, g: &Grammar, run: &PlainRun) -> Result<Vec<Item>, AllocError>
    requires { IsTableOf g.now.core run.now }
    ensures items { IfOk result (λ items. AreItemsOf g.now.core run.now items.items) }
    ensures few { IfOk result (λ items. length items.items < 2 ^ 32) }
{
    // A grammar is well-formed, and the instances of an expansion are those of the run.
    let _formed = g.start();
    let _instances = run.instances();
    let count = count_of(g, run)?;
    let mut items = Vec::with_capacity(alloc, count)?;
    add_root(&mut items, g, run)?;
    for opened in run.order() {
        add_edges(&mut items, *opened, g.production(opened.production).edges())?;
    }
    Ok(items)
}
