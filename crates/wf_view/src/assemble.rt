// Views put together from parts that keep all rules.
ghost use Rattle.std.specs.Prelude.{◌≡◌, IfOk};
ghost use Rattle.wf_view.specs.Held.{IsHeldFor};
ghost use Rattle.wf_view.specs.Marks.{AreMarks};
ghost use Rattle.wf_view.specs.Rules.{IsViewed};
ghost use Rattle.wf_view.specs.Viewing.{view_of};

mod rows;
mod table;

use crate::assemble::table::shown_table;
use crate::view::View;
use std::alloc::{AllocError, Global};
use wf_spec::{Grammar, ViewParts};

/// The view that parts describe, from the flags of the modules that they expand.
///
/// Cost: linear in the grammar and in the pairs of the deps parts; for each part a look-up by hashing, and for each pair a look at no more than 64 inputs and 64 outputs.
pub fn assemble(
    alloc: Global,
    g: &Grammar,
    parts: &ViewParts,
    marks: Vec<bool>,
) -> Result<View, AllocError>
    requires viewed { IsViewed g.now.core parts.now }
    requires marks { AreMarks g.now.core parts.now marks.items }
    ensures core { IfOk result (λ v. v.core ≡ view_of g.now.core parts.now) }
    ensures held { IfOk result (λ v. IsHeldFor g.now.core v) }
{
    let _formed = g.start();
    let rows = shown_table(alloc, g, parts.deps.items(), &marks)?;
    View::of_rows(alloc, g, marks, rows)
}
