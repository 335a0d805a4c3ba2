// Whether a list of choices names each seen module that the view expands once, in order, each with a production of it.
ghost use Rattle.std.specs.Prelude.{◌≡◌, ◌↔◌, ◌<◌, ◌++◌, ℕ, List, [], ◌∷◌, IsTrue, MatchOption, length};
ghost use Rattle.std.specs.List.{filter};
ghost use Rattle.wf_model.specs.Grammar.{IsProductionOf};
ghost use Rattle.wf_model.specs.WellFormed.{IsWellFormed};
ghost use Rattle.wf_safe.specs.Choosing.{AreProductions, is_seen_expanded, needing_below};
ghost use Rattle.wf_safe.specs.Witness.{IsChoiceOf, chosen_in, modules_in};

use crate::witness::Choice;
use wf_spec::{Grammar, ModNo, ProdNo};
use wf_view::{GrammarView, View};

/// Whether a production is one of a module.
pub fn is_production_of(g: &Grammar, p: ProdNo, m: ModNo) -> bool
    ensures told { IsTrue result ↔ IsProductionOf g.now.core p.0 m.0 }
    ensures formed { IsWellFormed g.now.core }
{
    (p.0 as usize) < g.productions().len() && g.production(p).head().0 == m.0
}

/// Whether a production is to be chosen for a module: the module is seen and the view expands it.
fn needs_choice(view: &View, m: ModNo) -> bool
    requires { m.0 < length view.now.seen }
    ensures { result ≡ is_seen_expanded view.now m.0 }
{
    view.seen(m) && view.expanded(m)
}

/// What follows the choice for a module that needs one, or all where it needs none; `None` where the module needs a choice and the first one is not for it.
fn past<'a>(view: &View, choice: &'a [Choice], m: ModNo) -> Option<&'a [Choice]>
    requires { m.0 < length view.now.seen }
    ensures { MatchOption result
        ((ms : List ℕ) → modules_in (chosen_in choice.now) ≡ filter (is_seen_expanded view.now) (m.0 ∷ []) ++ ms → ⊥)
        (λ rest. modules_in (chosen_in choice.now) ≡ filter (is_seen_expanded view.now) (m.0 ∷ []) ++ modules_in (chosen_in rest.now)) }
{
    if !needs_choice(view, m) {
        return Some(choice);
    }
    match choice {
        [first, rest @ ..] if first.module.0 == m.0 => Some(rest),
        _ => None,
    }
}

/// Whether the modules of the choices are those that need one, in order.
fn are_for_all(v: GrammarView<'_>, choice: &[Choice]) -> bool
    ensures told { IsTrue result ↔ (modules_in (chosen_in choice.now) ≡ needing_below v.entry.view.now (length v.entry.grammar.now.core.modules)) }
    ensures formed { IsWellFormed v.entry.grammar.now.core }
{
    let mut left = choice;
    for m in 0..v.grammar.modules().len() {
        match past(v.view, left, ModNo(m as u16)) {
            Some(rest) => left = rest,
            None => return false,
        }
    }
    left.is_empty()
}

/// Whether each choice is a production of its module.
fn are_productions(g: &Grammar, choice: &[Choice]) -> bool
    ensures { IsTrue result ↔ AreProductions g.now.core (chosen_in choice.now) }
{
    for c in choice {
        if !is_production_of(g, c.production, c.module) {
            return false;
        }
    }
    true
}

/// Whether a list names each seen module that the view expands once, in order, each with a production of it.
///
/// Cost: one look at each module and at each choice.
pub fn is_choice(v: GrammarView<'_>, choice: &[Choice]) -> bool
    ensures told { IsTrue result ↔ IsChoiceOf v.entry.grammar.now.core v.entry.view.now.core (chosen_in choice.now) }
    ensures formed { IsWellFormed v.entry.grammar.now.core }
{
    are_for_all(v, choice) && are_productions(v.grammar, choice)
}
