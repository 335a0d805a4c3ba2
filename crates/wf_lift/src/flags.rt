// Flags of the modules that a view expands.
ghost use Rattle.std.specs.Prelude.{◌≡◌, ◌<◌, ℕ, false, IfOk, length, get_or};
ghost use Rattle.wf_model.specs.View.{expands};

use std::alloc::{AllocError, Global};
use wf_spec::ModNo;
use wf_view::GrammarView;

/// A flag for each module, that is set where the view expands it.
pub fn expanded_flags(alloc: Global, sight: GrammarView<'_>) -> Result<Vec<bool>, AllocError>
    ensures one_each { IfOk result (λ flags. length flags.items ≡ length sight.entry.grammar.now.core.modules) }
    ensures flags { IfOk result (λ flags. (m : ℕ) → m < length sight.entry.grammar.now.core.modules →
        get_or flags.items m false ≡ expands sight.entry.view.now.core m) }
{
    let mut flags = Vec::new(alloc);
    for m in 0..sight.grammar.modules().len() {
        flags.push(sight.view.expanded(ModNo(m as u16)))?;
    }
    Ok(flags)
}
