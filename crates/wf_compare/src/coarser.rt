// Whether a view is coarser than another.
ghost use Rattle.std.specs.Prelude.{◌≡◌, MatchOption};
ghost use Rattle.compare_model.specs.Coarser.{IsCoarser, IsFirstExpandedAlone};
ghost use Rattle.wf_compare.specs.Flags.{is_expanded_alone};

use wf_spec::ModNo;
use wf_view::{GrammarView, View};

/// Whether the coarse view expands a module that the fine one does not.
fn is_expanded_alone(coarse: &View, fine: &View, m: ModNo) -> bool
    ensures { result ≡ is_expanded_alone coarse.now.core fine.now.core m.0 }
{
    coarse.expanded(m) && !fine.expanded(m)
}

/// The least module that the coarse view expands and the fine one does not, whether or not they see it; none where there is no such module, so that the one is coarser than the other, or as coarse.
///
/// Cost: two looks at each module. Takes no memory.
pub fn first_expanded_alone(coarse: GrammarView<'_>, fine: &View) -> Option<ModNo>
    ensures { MatchOption result (IsCoarser coarse.entry.view.now.core fine.now.core) (λ m. IsFirstExpandedAlone coarse.entry.view.now.core fine.now.core m.0) }
{
    for k in 0..coarse.grammar.modules().len() {
        let m = ModNo(k as u16);
        if is_expanded_alone(coarse.view, fine, m) {
            return Some(m);
        }
    }
    None
}
