// The grammar of a package, without the pairs that are given.
ghost use Rattle.std.specs.Prelude.{◌≡◌, IfOk};
ghost use Rattle.wf_package.specs.Parts.{AreShownParts, bare_package};

use crate::modules::placed_modules;
use crate::productions::placed_productions;
use crate::shown::ShownParts;
use std::alloc::{AllocError, Global};
use wf_spec::{Grammar, ModNo};
use wf_view::GrammarView;

/// The key by which the names of the modules are hashed. They are made of numbers, and nobody picks them.
const KEY: u64 = 0;

/// The grammar of the package of a view, without the pairs that are given. Fails only for want of memory.
///
/// Cost: linear in what is shown.
pub(crate) fn bare_grammar(
    alloc: Global,
    v: GrammarView<'_>,
    parts: &ShownParts,
) -> Result<Grammar, AllocError>
    requires { AreShownParts v.grammar.now.core v.view.now.core parts.now.modules parts.now.productions }
    ensures { IfOk result (λ g. g.core ≡ bare_package v.entry.grammar.now.core v.entry.view.now.core parts.now.modules parts.now.productions) }
{
    let places = parts.modules.places.as_slice();
    let start = ModNo(places[v.grammar.start().0 as usize]);
    let modules = placed_modules(alloc, v.grammar, &parts.modules.numbers)?;
    let rules = placed_productions(alloc, v.grammar, places, &parts.productions.numbers)?;
    Grammar::of_lists(alloc, KEY, start, modules, rules, Vec::new(alloc))
}
