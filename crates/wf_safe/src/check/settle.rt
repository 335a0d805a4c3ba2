// The pairs of the modules that a choice of productions settles, in rounds.
ghost use Rattle.std.specs.Prelude.{IfOk, OnOk};
ghost use Rattle.wf_model.specs.Grammar.{IsProductionOf};
ghost use Rattle.wf_model.specs.WellFormed.{IsWellFormed};
ghost use Rattle.wf_safe.specs.Choosing.{AreProductions};
ghost use Rattle.wf_safe.specs.Settling.{AreAllRowsByChoice, AreTried, IsTable, IsTried};
ghost use Rattle.wf_safe.specs.Witness.{IsChoiceOf, chosen_in};

use crate::check::body::joined_rows;
use crate::check::table::{are_set, is_set};
use crate::witness::Choice;
use std::alloc::{AllocError, Global};
use wf_spec::{Deps, Grammar};
use wf_view::{GrammarView, shown_table};

/// Sets the rows of a module to the pairs that its chosen body joins, if the module has no rows and each module of the body has some; and tells whether it did.
fn settle(alloc: Global, g: &Grammar, c: Choice, rows: &mut Deps) -> Result<bool, AllocError>
    requires table { IsTable g.now.core rows.old }
    requires production { IsProductionOf g.now.core c.production.0 c.module.0 }
    requires formed { IsWellFormed g.now.core }
    ensures table { OnOk result (IsTable g.now.core rows.new) }
    ensures tried { IfOk result (λ settled. IsTried g.now.core c.module.0 c.production.0 rows.old settled rows.new) }
{
    if is_set(rows, c.module) || !are_set(g, rows, c.production) {
        return Ok(false);
    }
    let joined = joined_rows(alloc, g, c.production, rows)?;
    rows.set(c.module, &joined)?;
    Ok(true)
}

/// Tries each choice once, in order, and tells whether some module was settled.
fn round(alloc: Global, g: &Grammar, choice: &[Choice], rows: &mut Deps) -> Result<bool, AllocError>
    requires table { IsTable g.now.core rows.old }
    requires productions { AreProductions g.now.core (chosen_in choice.now) }
    requires formed { IsWellFormed g.now.core }
    ensures table { OnOk result (IsTable g.now.core rows.new) }
    ensures tried { IfOk result (λ settled. AreTried g.now.core (chosen_in choice.now) (chosen_in choice.now) rows.old settled rows.new) }
{
    let mut some = false;
    for c in choice {
        let settled = settle(alloc, g, *c, rows)?;
        some |= settled;
    }
    Ok(some)
}

/// The pairs of all modules that a choice settles: those that the view shows, and for a module that it expands those that its chosen body joins. Fails only for want of memory.
///
/// Cost: at most as many rounds over the choice as there are modules; in each round at most one look at each position of each chosen body; and one search of a body for each input of its head.
pub fn settled_rows(
    alloc: Global,
    v: GrammarView<'_>,
    choice: &[Choice],
) -> Result<Deps, AllocError>
    requires choice { IsChoiceOf v.grammar.now.core v.view.now.core (chosen_in choice.now) }
    ensures { IfOk result (λ rows. AreAllRowsByChoice v.entry.grammar.now.core v.entry.view.now.core (chosen_in choice.now) rows) }
{
    let mut rows = shown_table(alloc, v)?;
    while round(alloc, v.grammar, choice, &mut rows)? {}
    Ok(rows)
}
