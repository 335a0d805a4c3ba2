// The choice of a production for each seen, expanded module.
ghost use Rattle.std.specs.Prelude.{◌≡◌, ℕ, IfOk};
ghost use Rattle.wf_model.specs.Safe.{IsChosen};
ghost use Rattle.wf_check.specs.Proper.{IsRankingOf};
ghost use Rattle.wf_safe.specs.Inducing.{choice_of};
ghost use Rattle.wf_safe.specs.Witness.{IsChoiceOf, chosen_in};

use crate::safety::expanded::is_seen_expanded;
use crate::witness::Choice;
use std::alloc::{AllocError, Global};
use wf_check::Proper;
use wf_spec::{ModNo, Seq};
use wf_view::GrammarView;

/// Each seen, expanded module, in order, with the production that attains its rank. Fails only for want of memory.
///
/// Cost: one look at each module.
pub fn choices(
    alloc: Global,
    v: GrammarView<'_>,
    proper: &Proper,
) -> Result<Seq<Choice>, AllocError>
    requires ranking { IsRankingOf v.grammar.now.core proper.now }
    ensures choice { IfOk result (λ list. IsChoiceOf v.entry.grammar.now.core v.entry.view.now.core (chosen_in list)) }
    ensures ranked { IfOk result (λ list. (m p : ℕ) → IsChosen (chosen_in list) m p → p ≡ choice_of proper.now m) }
{
    let mut list = Vec::new(alloc);
    for k in 0..v.grammar.modules().len() {
        let module = ModNo(k as u16);
        if is_seen_expanded(v.view, module) {
            let production = proper.choice(module);
            list.push(Choice { module, production })?;
        }
    }
    Ok(Seq::from_vec(list))
}
