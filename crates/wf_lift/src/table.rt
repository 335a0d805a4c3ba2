// The rows of all modules in each state.
ghost use Rattle.std.specs.Prelude.{◌≡◌, ◌<◌, ℕ, [], IfOk, length, get_or, map};
ghost use Rattle.words_model.specs.Lifting.{HasFewStates};
ghost use Rattle.wf_lift.specs.LiftedRows.{AreLiftedRows};

use crate::pairs::lift_rows;
use std::alloc::{AllocError, Global};
use wf_automaton::Automaton;
use wf_spec::ModNo;
use wf_view::GrammarView;

/// The rows of a module in each state; none where the view expands it.
fn module_rows(
    alloc: Global,
    sight: GrammarView<'_>,
    automaton: &Automaton,
    m: ModNo,
) -> Result<Vec<u64>, AllocError>
    requires ports { HasFewStates sight.grammar.now.core automaton.now.states }
    requires in_range { m.0 < length sight.grammar.now.core.modules }
    ensures { IfOk result (λ rows. AreLiftedRows sight.entry.grammar.now.core sight.entry.view.now.core automaton.now m.0 rows.items) }
{
    let states = automaton.states();
    if sight.view.expanded(m) {
        return Ok(Vec::new(alloc));
    }
    // A module has at most 64 inputs.
    let _inputs = sight.grammar.input_count(m);
    let outputs = sight.grammar.output_count(m);
    let shown = sight.view.shown_rows(m);
    let rows = lift_rows(alloc, automaton, states, m, shown, outputs)?;
    Ok(rows)
}

/// The rows of each module in each state.
pub fn all_rows(
    alloc: Global,
    sight: GrammarView<'_>,
    automaton: &Automaton,
) -> Result<Vec<Vec<u64>>, AllocError>
    requires { HasFewStates sight.grammar.now.core automaton.now.states }
    ensures one_each { IfOk result (λ table. length table.items ≡ length sight.entry.grammar.now.core.modules) }
    ensures lifted { IfOk result (λ table. (m : ℕ) → m < length sight.entry.grammar.now.core.modules →
        AreLiftedRows sight.entry.grammar.now.core sight.entry.view.now.core automaton.now m (get_or (map (λ r. r.items) table.items) m [])) }
{
    let mut table = Vec::new(alloc);
    for m in 0..sight.grammar.modules().len() {
        let rows = module_rows(alloc, sight, automaton, ModNo(m as u16))?;
        table.push(rows)?;
    }
    Ok(table)
}
