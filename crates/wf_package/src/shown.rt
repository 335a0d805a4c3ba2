// What a view shows of a grammar: its seen modules, and the productions of those that it expands.
ghost use Rattle.std.specs.Prelude.{◌≡◌, ◌<◌, length, IfOk};
ghost use Rattle.wf_model.specs.Grammar.{head_of};
ghost use Rattle.wf_safe.specs.Choosing.{is_seen_expanded};
ghost use Rattle.wf_package.specs.Parts.{ArePlaces, AreShownParts, open_production_flags, seen_module_flags};

use crate::places::{PlacedNumbers, flagged};
use std::alloc::{AllocError, Global};
use wf_spec::{ModNo, ProdNo};
use wf_view::GrammarView;

/// The seen modules, and the productions of those that are expanded, each in order and with their places.
#[derive(Drop)]
pub(crate) struct ShownParts {
    pub modules: PlacedNumbers,
    pub productions: PlacedNumbers,
}

/// A flag for each module, that is set where the module is seen.
fn seen_module_flags(alloc: Global, v: GrammarView<'_>) -> Result<Vec<bool>, AllocError>
    ensures { IfOk result (λ flags. flags.items ≡ seen_module_flags v.entry.grammar.now.core v.entry.view.now) }
{
    let mut flags = Vec::new(alloc);
    for m in 0..v.grammar.modules().len() {
        flags.push(v.view.seen(ModNo(m as u16)))?;
    }
    Ok(flags)
}

/// Whether the head of a production is seen and expanded.
fn is_open(v: GrammarView<'_>, p: ProdNo) -> bool
    requires { p.0 < length v.grammar.now.core.productions }
    ensures { result ≡ is_seen_expanded v.entry.view.now (head_of v.entry.grammar.now.core p.0) }
{
    let head = v.grammar.production(p).head();
    v.view.seen(head) && v.view.expanded(head)
}

/// A flag for each production, that is set where its head is seen and expanded.
fn open_production_flags(alloc: Global, v: GrammarView<'_>) -> Result<Vec<bool>, AllocError>
    ensures { IfOk result (λ flags. flags.items ≡ open_production_flags v.entry.grammar.now.core v.entry.view.now) }
{
    let mut flags = Vec::new(alloc);
    for p in 0..v.grammar.productions().len() {
        flags.push(is_open(v, ProdNo(p as u16)))?;
    }
    Ok(flags)
}

/// The seen modules, with their places.
fn seen_modules(alloc: Global, v: GrammarView<'_>) -> Result<PlacedNumbers, AllocError>
    ensures { IfOk result (λ p. ArePlaces (seen_module_flags v.entry.grammar.now.core v.entry.view.now) p) }
{
    let _formed = v.grammar.start();
    let flags = seen_module_flags(alloc, v)?;
    flagged(alloc, &flags)
}

/// The productions of modules that are seen and expanded, with their places.
fn open_productions(alloc: Global, v: GrammarView<'_>) -> Result<PlacedNumbers, AllocError>
    ensures { IfOk result (λ p. ArePlaces (open_production_flags v.entry.grammar.now.core v.entry.view.now) p) }
{
    let _formed = v.grammar.start();
    let flags = open_production_flags(alloc, v)?;
    flagged(alloc, &flags)
}

/// What a view shows of a grammar. Fails only for want of memory.
///
/// Cost: one look at each module and at each production.
pub(crate) fn shown_parts(alloc: Global, v: GrammarView<'_>) -> Result<ShownParts, AllocError>
    ensures { IfOk result (λ s. AreShownParts v.entry.grammar.now.core v.entry.view.now.core s.modules s.productions) }
{
    let _formed = v.grammar.start();
    let modules = seen_modules(alloc, v)?;
    let productions = open_productions(alloc, v)?;
    Ok(ShownParts {
        modules,
        productions,
    })
}
