// Lifted views.
ghost use Rattle.std.specs.Prelude.{◌≡◌, IfOk};
ghost use Rattle.wf_view.specs.Held.{IsHeldFor};
ghost use Rattle.words_model.specs.Lifting.{lift, lift_view, HasFewStates};
ghost use Rattle.wf_lift.specs.Alike.{PerceiveAlike};

use crate::flags::expanded_flags;
use crate::table::all_rows;
use std::alloc::{AllocError, Global};
use wf_accept::Accepted;
use wf_automaton::Automaton;
use wf_view::{GrammarView, View};

/// The lifted view, as a view of the lifted grammar: it expands the same modules, and where the view shows that a module joins an input to an output, it joins the input in each state to the output in the next.
///
/// What is made perceives the same as the lifted view of the definitions, though it may list the pairs in another order; by `perceived_alike_law` the one is safe exactly if the other is, and they give the same verdicts. Fails only for want of memory.
///
/// Cost: for each module that is not expanded a look at each input with each output, one step for each pair that is shown in each state, and that of `View::of_rows`.
pub fn lift_view(
    alloc: Global,
    sight: GrammarView<'_>,
    automaton: &Automaton,
    lifted: &Accepted,
) -> Result<View, AllocError>
    requires ports { HasFewStates sight.grammar.now.core automaton.now.states }
    requires lifted { lifted.now.grammar.core ≡ lift sight.grammar.now.core automaton.now.states }
    ensures held { IfOk result (λ v. IsHeldFor lifted.now.grammar.core v) }
    ensures alike { IfOk result (λ v. PerceiveAlike (lift_view automaton.now sight.entry.view.now.core) v.core) }
{
    let _formed = sight.grammar.start();
    let _automaton = automaton.states();
    let expanded = expanded_flags(alloc, sight)?;
    let rows = all_rows(alloc, sight, automaton)?;
    let grammar = lifted.grammar();
    let view = View::of_rows(alloc, grammar, expanded, rows)?;
    Ok(view)
}
