// The pairs that a view shows, as a table.
ghost use Rattle.std.specs.Prelude.{◌≡◌, ◌<◌, cond, [], Some, length, get_or, set, OnOk, IfOk};
ghost use Rattle.wf_model.specs.View.{expands};
ghost use Rattle.wf_model.specs.WellFormed.{IsWellFormed};
ghost use Rattle.wf_view.specs.ShownTable.{AreOnlyShownBelow};

use crate::grammar_view::GrammarView;
use crate::view::View;
use std::alloc::{AllocError, Global};
use wf_spec::{Deps, ModNo};

/// Sets the rows of a module to the pairs that the view shows of it, if the view does not expand it.
fn show(view: &View, rows: &mut Deps, m: ModNo) -> Result<(), AllocError>
    requires in_range { m.0 < length view.now.rows }
    requires room { m.0 < length rows.old }
    ensures { OnOk result (rows.new ≡ cond (expands view.now.core m.0) rows.old (set rows.old m.0 (Some (get_or view.now.rows m.0 [])))) }
{
    if view.expanded(m) {
        return Ok(());
    }
    rows.set(m, view.shown_rows(m))
}

/// The pairs that a view shows of the modules that it does not expand, and no rows for the others. Fails only for want of memory.
///
/// Cost: one copy of each row.
pub fn shown_table(alloc: Global, v: GrammarView<'_>) -> Result<Deps, AllocError>
    ensures shown { IfOk result (λ rows. AreOnlyShownBelow v.entry.grammar.now.core v.entry.view.now (length v.entry.grammar.now.core.modules) rows) }
    ensures formed { IsWellFormed v.entry.grammar.now.core }
{
    let count = v.grammar.modules().len() as u16;
    let mut rows = Deps::new(alloc, count)?;
    for m in 0..count {
        show(v.view, &mut rows, ModNo(m))?;
    }
    Ok(rows)
}
