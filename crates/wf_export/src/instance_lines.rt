// The lines of the instances that are seen and not open.
ghost use Rattle.std.specs.Prelude.{◌≡◌, ◌<◌, ◌++◌, length, OnOk};
ghost use Rattle.wf_flat.specs.Table.{events_of};
ghost use Rattle.wf_export.specs.Adds.{Adds};
ghost use Rattle.wf_export.specs.ExportText.{named_line, instances_text};
ghost use Rattle.wf_export.specs.Shown.{IsRunSeen, held_instance_line};

use crate::fault::ExportFault;
use crate::gathering::pass_on;
use std::alloc::AllocError;
use wf_flat::{Inst, PlainRun, RunView};
use wf_io::Sink;
use wf_lines::Due;
use wf_spec::Grammar;
use wf_view::View;

/// Appends a line of a word, the name of an instance and the name of its module.
fn add_named(
    line: &mut Vec<u8>,
    word: &[u8],
    name: &[u8],
    module_name: &[u8],
) -> Result<(), AllocError>
    ensures { OnOk result (line.new.items ≡ line.old.items ++ named_line word.now name.now module_name.now) }
{
    line.extend_from_slice(word)?;
    line.extend_from_slice(name)?;
    line.extend_from_slice(b" ")?;
    line.extend_from_slice(module_name)?;
    line.extend_from_slice(b"\n")?;
    Ok(())
}

/// Appends the line of an instance, if it is not open.
fn add_instance(line: &mut Vec<u8>, g: &Grammar, view: &View, x: &Inst) -> Result<(), AllocError>
    requires { x.now.module.0 < length g.now.core.modules }
    ensures { OnOk result (line.new.items ≡ line.old.items ++ held_instance_line g.now.core view.now.core x.now) }
{
    let module_name = g.modules()[x.module.0 as usize].name();
    if !view.expanded(x.module) {
        return add_named(line, b"leaf ", x.name.bytes(), module_name);
    }
    if x.production.is_some() {
        return Ok(());
    }
    add_named(line, b"pending ", x.name.bytes(), module_name)
}

/// Adds the line of an instance, if it is not open.
fn put_instance<O: Sink>(
    due: &mut Due,
    g: &Grammar,
    view: &View,
    x: &Inst,
    out: &mut O,
) -> Result<(), ExportFault>
    requires { x.now.module.0 < length g.now.core.modules }
    ensures { Adds O.put_bytes O.faults O.at_last (held_instance_line g.now.core view.now.core x.now) due.old due.new out.old out.new result }
{
    let Ok(()) = add_instance(&mut due.text, g, view, x) else {
        return Err(ExportFault::NoMemory);
    };
    pass_on(due, out)
}

/// Adds the lines of the instances that are seen and not open, in order of making.
pub fn put_instances<O: Sink>(
    due: &mut Due,
    g: &Grammar,
    view: &View,
    run: &PlainRun,
    shown: &RunView<'_>,
    out: &mut O,
) -> Result<(), ExportFault>
    requires { IsRunSeen g.now.core view.now.core run.now shown.now }
    ensures { Adds O.put_bytes O.faults O.at_last (instances_text g.now.core view.now.core (events_of run.now))
        due.old due.new out.old out.new result }
{
    let instances = run.instances();
    for k in shown.seen() {
        put_instance(due, g, view, &instances[*k as usize], out)?;
    }
    Ok(())
}
