// The lines of the items that are visible.
ghost use Rattle.std.specs.Prelude.{◌≡◌, ◌<◌, ◌++◌, flat_map, length, map, OnOk};
ghost use Rattle.wf_model.specs.declared.body.Edge.{Edge as EdgeHeld};
ghost use Rattle.wf_model.specs.Items.{dotted};
ghost use Rattle.wf_model.specs.Lists.{IsIn};
ghost use Rattle.wf_model.specs.Meaning.{edge_of};
ghost use Rattle.wf_flat.specs.Table.{IsTableOf};
ghost use Rattle.wf_export.specs.Adds.{Adds};
ghost use Rattle.wf_export.specs.ExportText.{item_line};
ghost use Rattle.wf_export.specs.Shown.{IsReady, port_lines, root_port_lines, root_lines, held_edge_line, expansion_lines, expansions_text, held_items_text};

use crate::fault::ExportFault;
use crate::gathering::pass_on;
use crate::ports::{add_dotted, port_name};
use std::alloc::AllocError;
use wf_flat::{Inst, Opened, PlainRun, RunView};
use wf_io::Sink;
use wf_lines::Due;
use wf_spec::{Edge, Grammar, Name, Side};

/// Appends the line of an item, which is named by an instance and a port.
fn add_item(line: &mut Vec<u8>, instance: &[u8], port: &[u8]) -> Result<(), AllocError>
    ensures { OnOk result (line.new.items ≡ line.old.items ++ item_line (dotted instance.now port.now)) }
{
    line.extend_from_slice(b"item ")?;
    add_dotted(line, instance, port)?;
    line.extend_from_slice(b"\n")?;
    Ok(())
}

/// Appends the lines of ports of one instance.
fn add_ports(line: &mut Vec<u8>, instance: &[u8], ports: &[Name]) -> Result<(), AllocError>
    ensures { OnOk result (line.new.items ≡ line.old.items ++ port_lines instance.now ports.now) }
{
    for port in ports {
        add_item(line, instance, port.bytes())?;
    }
    Ok(())
}

/// Appends the lines of the ports of a root of this name: its inputs and its outputs.
fn add_root(line: &mut Vec<u8>, g: &Grammar, name: &[u8]) -> Result<(), AllocError>
    ensures { OnOk result (line.new.items ≡ line.old.items ++ root_port_lines g.now.core name.now) }
{
    let module = &g.modules()[g.start().0 as usize];
    add_ports(line, name, module.inputs())?;
    add_ports(line, name, module.outputs())?;
    Ok(())
}

/// Adds the lines of the ports of the root, if there is one.
fn put_root<O: Sink>(
    due: &mut Due,
    g: &Grammar,
    instances: &[Inst],
    out: &mut O,
) -> Result<(), ExportFault>
    ensures { Adds O.put_bytes O.faults O.at_last (root_lines g.now.core instances.now) due.old due.new out.old out.new result }
{
    let Some(root) = instances.first() else {
        return Ok(());
    };
    let Ok(()) = add_root(&mut due.text, g, root.name.bytes()) else {
        return Err(ExportFault::NoMemory);
    };
    pass_on(due, out)
}

/// Appends the line of the item of an edge, where the instances at the positions are given.
fn add_edge(line: &mut Vec<u8>, g: &Grammar, children: &[Inst], e: Edge) -> Result<(), AllocError>
    requires { e.from.pos.0 < length children.now }
    ensures { OnOk result (line.new.items ≡ line.old.items ++ held_edge_line g.now.core children.now (edge_of e)) }
{
    let child = &children[e.from.pos.0 as usize];
    let port = port_name(g, child.module, Side::Output, e.from.port);
    add_item(line, child.name.bytes(), port)
}

/// Appends the lines of the items of edges.
fn add_edges(
    line: &mut Vec<u8>,
    g: &Grammar,
    children: &[Inst],
    edges: &[Edge],
) -> Result<(), AllocError>
    requires { (e : EdgeHeld) → IsIn e edges.now → e.from.pos.0 < length children.now }
    ensures { OnOk result (line.new.items ≡ line.old.items ++ flat_map (held_edge_line g.now.core children.now) (map edge_of edges.now)) }
{
    for e in edges {
        add_edge(line, g, children, *e)?;
    }
    Ok(())
}

/// Adds the lines of the items that an expansion makes, if its instance is open.
fn put_expansion<O: Sink>(
    due: &mut Due,
    g: &Grammar,
    instances: &[Inst],
    shown: &RunView<'_>,
    o: Opened,
    out: &mut O,
) -> Result<(), ExportFault>
    requires { IsReady g.now.core (length instances.now) o }
    ensures { Adds O.put_bytes O.faults O.at_last (expansion_lines g.now.core instances.now shown.now.opens o)
        due.old due.new out.old out.new result }
{
    if !shown.opens(o.instance) {
        return Ok(());
    }
    let first = o.first as usize;
    let children = &instances[first..first + o.count as usize];
    let Ok(()) = add_edges(
        &mut due.text,
        g,
        children,
        g.production(o.production).edges(),
    ) else {
        return Err(ExportFault::NoMemory);
    };
    pass_on(due, out)
}

/// Adds the lines of the items that the expansions of open instances make, in order.
fn put_expansions<O: Sink>(
    due: &mut Due,
    g: &Grammar,
    run: &PlainRun,
    shown: &RunView<'_>,
    out: &mut O,
) -> Result<(), ExportFault>
    requires { IsTableOf g.now.core run.now }
    ensures { Adds O.put_bytes O.faults O.at_last (expansions_text g.now.core run.now shown.now.opens) due.old due.new out.old out.new result }
{
    // A grammar is well-formed: the production of an expansion is there.
    let _formed = g.start();
    let instances = run.instances();
    for o in run.order() {
        put_expansion(due, g, instances, shown, *o, out)?;
    }
    Ok(())
}

/// Adds the lines of the items that are visible, in order of making.
pub fn put_items<O: Sink>(
    due: &mut Due,
    g: &Grammar,
    run: &PlainRun,
    shown: &RunView<'_>,
    out: &mut O,
) -> Result<(), ExportFault>
    requires { IsTableOf g.now.core run.now }
    ensures { Adds O.put_bytes O.faults O.at_last (held_items_text g.now.core run.now shown.now.opens) due.old due.new out.old out.new result }
{
    put_root(due, g, run.instances(), out)?;
    put_expansions(due, g, run, shown, out)
}
