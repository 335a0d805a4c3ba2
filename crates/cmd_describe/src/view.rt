// `view`: SPEC and VIEW, and then the text of the view.
ghost use Rattle.std.specs.Prelude.{◌∷◌, ◌<◌, [], cond, false, length, get_or};
ghost use Rattle.wf_model.specs.Meaning.{pairs_of};
ghost use Rattle.wf_message.specs.Endings.{end_after};
ghost use Rattle.wf_stage.specs.Ends.{IsWritten};
ghost use Rattle.wf_stage.specs.Promises.{Writes, Obeys};
ghost use Rattle.cmd_describe.specs.Does.{IsViewWritten, Views};
ghost use Rattle.cmd_describe.specs.ViewText.{module_line};

use crate::view_text::add_module_line;
use std::alloc::Global;
use wf_inputs::{UnderView, under_view};
use wf_io::{Shelf, Sink};
use wf_message::Stop;
use wf_safe::SafeView;
use wf_spec::ModNo;
use wf_stage::put_text;

/// Puts the line of a module, if the module is seen. The line is made whole before it is put, in place of what `line` held.
fn put_module<O: Sink>(
    v: &SafeView<'_>,
    m: ModNo,
    line: &mut Vec<u8>,
    out: &mut O,
) -> Result<(), Stop>
    requires in_range { m.0 < length v.now.accepted.grammar.core.modules }
    ensures writes { Writes O.put_bytes O.faults O.at_last []
        (IsWritten (cond (get_or v.now.view.seen m.0 false) (module_line v.now.accepted.grammar.core v.now.view.core (pairs_of v.now.full) m.0) []))
        out.old out.new (end_after result) }
{
    if !v.view().seen(m) {
        return Ok(());
    }
    line.clear();
    let Ok(()) = add_module_line(line, v, m) else {
        return Err(Stop::NoMemory);
    };
    put_text(out, line)
}

/// Puts the lines of the seen modules, one by one, in order.
fn put_lines<O: Sink>(alloc: Global, v: &SafeView<'_>, out: &mut O) -> Result<(), Stop>
    ensures writes { Writes O.put_bytes O.faults O.at_last [] (IsViewWritten v.now.accepted.grammar.core v.now.view.core) out.old out.new (end_after result) }
{
    let count = v.grammar().modules().len();
    prove!(count <= 1024);
    let mut line = Vec::new(alloc);
    for k in 0..count as u16 {
        put_module(v, ModNo(k), &mut line, out)?;
    }
    Ok(())
}

/// What `view` does once SPEC and VIEW are taken.
struct Viewing;

impl UnderView for Viewing {
    ghost names = { λ v. [] };

    ghost does = { λ v f h u. IsViewWritten h.core u };

    ghost holds_back = { λ v. ⊥ };

    fn obey_under<H: Shelf, O: Sink>(
        &self,
        alloc: Global,
        v: &SafeView<'_>,
        shelf: &mut H,
        out: &mut O,
    ) -> Result<(), Stop> {
        put_lines(alloc, v, out)
    }
}

/// Writes a line for each module that is seen under a safe view.
pub fn describe_view<H: Shelf, O: Sink>(
    alloc: Global,
    spec_name: &str,
    view_name: &str,
    shelf: &mut H,
    out: &mut O,
) -> Result<(), Stop>
    ensures obeys { Obeys H.files H.readings H.faults H.at_last O.put_bytes O.faults O.at_last (spec_name.now ∷ view_name.now ∷ []) []
        (λ f. Views (f spec_name.now) (f view_name.now)) shelf.old shelf.new out.old out.new (end_after result) }
{
    under_view(alloc, spec_name, view_name, &Viewing, shelf, out)
}
