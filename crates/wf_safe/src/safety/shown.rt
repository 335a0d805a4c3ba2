// The rows of the modules that a view does not expand.
ghost use Rattle.std.specs.Prelude.{IfOk, length};
ghost use Rattle.wf_model.specs.WellFormed.{IsWellFormed};
ghost use Rattle.wf_safe.specs.Inducing.{AreShownBelow};

use std::alloc::{AllocError, Global};
use wf_spec::{Deps, ModNo};
use wf_view::GrammarView;

/// The rows that a view shows of each module that is seen and not expanded. Fails only for want of memory.
///
/// Cost: one copy of each row.
pub fn shown_deps(alloc: Global, v: GrammarView<'_>) -> Result<Deps, AllocError>
    ensures shown { IfOk result (λ d. AreShownBelow v.entry.grammar.now.core v.entry.view.now.core (length v.entry.grammar.now.core.modules) d) }
    ensures formed { IsWellFormed v.entry.grammar.now.core }
{
    let count = v.grammar.modules().len();
    let mut deps = Deps::new(alloc, count as u16)?;
    for k in 0..count {
        let m = ModNo(k as u16);
        if v.view.seen(m) && !v.view.expanded(m) {
            deps.set(m, v.view.shown_rows(m))?;
        }
    }
    Ok(deps)
}
