// The provenance of a run under a view.
ghost use Rattle.std.specs.Prelude.{◌≡◌, ◌<◌, ◌≤◌, length, IfOk, IfErr, OnOk};
ghost use Rattle.wf_io.specs.Told.{Rose, Appended};
ghost use Rattle.wf_lines.specs.Taking.{IsBegun};
ghost use Rattle.wf_flat.specs.Table.{IsTableOf, events_of};
ghost use Rattle.wf_export.specs.Adds.{Adds, Writes};
ghost use Rattle.wf_export.specs.ExportText.{export_text};
ghost use Rattle.wf_export.specs.Shown.{IsRunSeen, AreLinksSeen};
ghost use Rattle.wf_export.specs.declared.fault.ExportFault.TheVariants.{WriteFault, NoMemory};

use crate::fault::ExportFault;
use crate::gathering::put_due;
use crate::instance_lines::put_instances;
use crate::item_lines::put_items;
use crate::link_lines::put_links;
use std::alloc::{AllocError, Global};
use wf_flat::{PlainRun, RunView};
use wf_io::Sink;
use wf_lines::Due;
use wf_spec::{Deps, Grammar};
use wf_view::{GrammarView, View, shown_table};

/// A run as a view shows it, and rows by which an instance whose module is not expanded has its perceived pairs, and a pending one has none. Fails only for want of memory.
fn run_seen<'v>(
    alloc: Global,
    v: GrammarView<'v>,
    run: &PlainRun,
) -> Result<(Deps, RunView<'v>), AllocError>
    requires run { IsTableOf v.grammar.now.core run.now }
    ensures seen { IfOk result (λ s. IsRunSeen v.entry.grammar.now.core v.entry.view.now.core run.now s.1) }
    ensures links { IfOk result (λ s. AreLinksSeen v.entry.grammar.now.core v.entry.view.now.core run.now s.0 s.1) }
{
    // A grammar is well-formed, and each expansion of a run is of an instance that is there.
    let _formed = v.grammar.start();
    let _there = run.instances();
    let rows = shown_table(alloc, v)?;
    let shown = RunView::of(alloc, v.grammar, run, v.view.marks())?;
    Ok((rows, shown))
}

/// Adds the whole text to what is due, and puts it where it is long.
fn put_all<O: Sink>(
    alloc: Global,
    due: &mut Due,
    g: &Grammar,
    view: &View,
    run: &PlainRun,
    rows: &Deps,
    shown: &RunView<'_>,
    out: &mut O,
) -> Result<(), ExportFault>
    requires seen { IsRunSeen g.now.core view.now.core run.now shown.now }
    requires links { AreLinksSeen g.now.core view.now.core run.now rows.now shown.now }
    ensures { Adds O.put_bytes O.faults O.at_last (export_text g.now.core view.now.core (events_of run.now))
        due.old due.new out.old out.new result }
{
    put_instances(due, g, view, run, shown, out)?;
    put_items(due, g, run, shown, out)?;
    put_links(alloc, due, g, run, rows, shown, out)
}

/// Writes the whole text, in large pieces.
fn write_all<O: Sink>(
    alloc: Global,
    g: &Grammar,
    view: &View,
    run: &PlainRun,
    rows: &Deps,
    shown: &RunView<'_>,
    out: &mut O,
) -> Result<(), ExportFault>
    requires seen { IsRunSeen g.now.core view.now.core run.now shown.now }
    requires links { AreLinksSeen g.now.core view.now.core run.now rows.now shown.now }
    ensures { Writes O.put_bytes O.faults O.at_last (export_text g.now.core view.now.core (events_of run.now)) out.old out.new result }
{
    let Ok(mut due) = Due::new(alloc) else {
        return Err(ExportFault::NoMemory);
    };
    put_all(alloc, &mut due, g, view, run, rows, shown, out)?;
    put_due(&mut due, out)
}

/// Writes the plain provenance of a run under a view: a line for each instance that is seen and not open, for each visible item, and for each link between their ports. The text is put in pieces of 64 KiB and a little more.
///
/// Errors: `WriteFault` where the sink fails, `NoMemory`. After either a beginning of the text was put.
///
/// Cost: linear in the grammar, the run, its links and the text; no name is looked up. Of the links those of one instance are held at a time.
pub fn write_export<O: Sink>(
    alloc: Global,
    v: GrammarView<'_>,
    run: &PlainRun,
    out: &mut O,
) -> Result<(), ExportFault>
    requires run { IsTableOf v.grammar.now.core run.now }
    ensures ok { OnOk result (Appended (export_text v.entry.grammar.now.core v.entry.view.now.core (events_of run.now)) (O.put_bytes out.old) (O.put_bytes out.new)) }
    ensures begun { IsBegun (export_text v.entry.grammar.now.core v.entry.view.now.core (events_of run.now)) (O.put_bytes out.old) (O.put_bytes out.new) }
    ensures same { OnOk result (O.faults out.new ≡ O.faults out.old) }
    ensures memory { IfErr result (λ f. f ≡ NoMemory → O.faults out.new ≡ O.faults out.old) }
    ensures later { O.faults out.old ≤ O.faults out.new }
    ensures cause { IfErr result (λ f. f ≡ WriteFault → Rose (O.faults out.old) (O.faults out.new) (O.at_last out.new)) }
    ensures some { IfErr result (λ f. f ≡ WriteFault → 0 < length (export_text v.entry.grammar.now.core v.entry.view.now.core (events_of run.now))) }
{
    let Ok((rows, shown)) = run_seen(alloc, v, run) else {
        return Err(ExportFault::NoMemory);
    };
    write_all(alloc, v.grammar, v.view, run, &rows, &shown, out)
}
