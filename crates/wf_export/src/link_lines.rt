// The lines of the links.
ghost use Rattle.std.specs.Prelude.{◌≡◌, ◌<◌, ◌++◌, ℕ, length, OnOk};
ghost use Rattle.wf_model.specs.Lists.{IsIn};
ghost use Rattle.wf_flat.specs.Table.{IsTableOf};
ghost use Rattle.wf_flat.specs.Graph.{links_at, links_among, IsMadeFor};
ghost use Rattle.wf_flat.specs.Flat.{AreWithin};
ghost use Rattle.wf_export.specs.Adds.{Adds};
ghost use Rattle.wf_export.specs.Shown.{held_port_text, held_link_line, held_links_text, instance_links_text, seen_links_text};

use crate::fault::ExportFault;
use crate::gathering::pass_on;
use crate::ports::{add_dotted, port_name};
use std::alloc::{AllocError, Global};
use wf_flat::{Inst, Link, PlainRun, Port, RunView, add_links};
use wf_io::Sink;
use wf_lines::Due;
use wf_spec::{Deps, Grammar};

/// Appends a port by its name.
fn add_port(line: &mut Vec<u8>, g: &Grammar, instances: &[Inst], x: Port) -> Result<(), AllocError>
    requires { x.instance < length instances.now }
    ensures { OnOk result (line.new.items ≡ line.old.items ++ held_port_text g.now.core instances.now x) }
{
    let owner = &instances[x.instance as usize];
    let port = port_name(g, owner.module, x.side, x.port);
    add_dotted(line, owner.name.bytes(), port)
}

/// Appends the line of a link.
fn add_link(
    line: &mut Vec<u8>,
    g: &Grammar,
    instances: &[Inst],
    link: Link,
) -> Result<(), AllocError>
    requires from { link.from.instance < length instances.now }
    requires to { link.to.instance < length instances.now }
    ensures { OnOk result (line.new.items ≡ line.old.items ++ held_link_line g.now.core instances.now link) }
{
    line.extend_from_slice(b"link ")?;
    add_port(line, g, instances, link.from)?;
    line.extend_from_slice(b" ")?;
    add_port(line, g, instances, link.to)?;
    line.extend_from_slice(b"\n")?;
    Ok(())
}

/// Adds the line of a link.
fn put_link<O: Sink>(
    due: &mut Due,
    g: &Grammar,
    instances: &[Inst],
    link: Link,
    out: &mut O,
) -> Result<(), ExportFault>
    requires from { link.from.instance < length instances.now }
    requires to { link.to.instance < length instances.now }
    ensures { Adds O.put_bytes O.faults O.at_last (held_link_line g.now.core instances.now link) due.old due.new out.old out.new result }
{
    let Ok(()) = add_link(&mut due.text, g, instances, link) else {
        return Err(ExportFault::NoMemory);
    };
    pass_on(due, out)
}

/// Adds the lines of links, in order.
fn put_each<O: Sink>(
    due: &mut Due,
    g: &Grammar,
    instances: &[Inst],
    links: &[Link],
    out: &mut O,
) -> Result<(), ExportFault>
    requires { AreWithin (length instances.now) links.now }
    ensures { Adds O.put_bytes O.faults O.at_last (held_links_text g.now.core instances.now links.now) due.old due.new out.old out.new result }
{
    for link in links {
        put_link(due, g, instances, *link, out)?;
    }
    Ok(())
}

/// Adds the lines of the links of the seen instance of a number. The list of links is in use for it.
fn put_instance_links<O: Sink>(
    due: &mut Due,
    links: &mut Vec<Link>,
    g: &Grammar,
    run: &PlainRun,
    rows: &Deps,
    shown: &RunView<'_>,
    k: u32,
    out: &mut O,
) -> Result<(), ExportFault>
    requires run { IsTableOf g.now.core run.now }
    requires there { k < length run.now.instances }
    requires made_for { IsMadeFor g.now.core rows.now }
    requires within { AreWithin (length run.now.instances) (links_at g.now.core shown.now.marks rows.now run.now.instances k) }
    ensures { Adds O.put_bytes O.faults O.at_last (instance_links_text g.now.core shown.now.marks rows.now run.now.instances k)
        due.old due.new out.old out.new result }
{
    links.clear();
    let Ok(()) = add_links(links, g, run, k, shown.marks(), rows) else {
        return Err(ExportFault::NoMemory);
    };
    put_each(due, g, run.instances(), links, out)
}

/// Adds the lines of the links between what is seen, in order. The links of one instance are held at a time.
pub fn put_links<O: Sink>(
    alloc: Global,
    due: &mut Due,
    g: &Grammar,
    run: &PlainRun,
    rows: &Deps,
    shown: &RunView<'_>,
    out: &mut O,
) -> Result<(), ExportFault>
    requires run { IsTableOf g.now.core run.now }
    requires there { (k : ℕ) → IsIn k shown.now.numbers → k < length run.now.instances }
    requires made_for { IsMadeFor g.now.core rows.now }
    requires within { AreWithin (length run.now.instances) (links_among g.now.core shown.now.marks rows.now run.now.instances shown.now.numbers) }
    ensures { Adds O.put_bytes O.faults O.at_last (seen_links_text g.now.core shown.now rows.now run.now.instances)
        due.old due.new out.old out.new result }
{
    let mut links = Vec::new(alloc);
    for k in shown.seen() {
        put_instance_links(due, &mut links, g, run, rows, shown, *k, out)?;
    }
    Ok(())
}
