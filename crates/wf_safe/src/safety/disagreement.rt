// The least production that does not join the pairs of its head.
ghost use Rattle.std.specs.Prelude.{◌<◌, ℕ, length, IfOk, MatchOption};
ghost use Rattle.wf_model.specs.Meaning.{pairs_of};
ghost use Rattle.wf_model.specs.View.{IsSeenModule};
ghost use Rattle.wf_body.specs.Matrices.{HasRows};
ghost use Rattle.wf_safe.specs.Disagreeing.{AgreesIfExpanded, IsFirstPair, IsLeastDisagreement};

use crate::full::rows_of;
use crate::safety::difference::{Difference, first_difference};
use crate::safety::expanded::is_seen_expanded;
use bool_mat::MatPool;
use std::alloc::{AllocError, Global};
use wf_body::induced;
use wf_spec::{Deps, ProdNo};
use wf_view::GrammarView;

/// A production that does not join the pairs of its head, and the first pair on which the two disagree.
#[derive(Clone, Copy, Drop)]
pub struct Disagreement {
    pub production: ProdNo,
    pub pair: Difference,
}

/// The first pair on which a production disagrees with its head, if this is seen and expanded and there is one. Fails only for want of memory.
///
/// Cost: one pass through the body.
fn first_pair(
    alloc: Global,
    v: GrammarView<'_>,
    deps: &Deps,
    p: ProdNo,
) -> Result<Option<Difference>, AllocError>
    requires rows { (m : ℕ) → IsSeenModule v.grammar.now.core v.view.now.core m → HasRows v.grammar.now.core deps.now m }
    requires production { p.0 < length v.grammar.now.core.productions }
    ensures { IfOk result (λ o. MatchOption o (AgreesIfExpanded v.entry.grammar.now.core v.entry.view.now.core (pairs_of deps.now) p.0)
        (λ x. IsFirstPair v.entry.grammar.now.core v.entry.view.now.core (pairs_of deps.now) p.0 x)) }
{
    let head = v.grammar.production(p).head();
    if !is_seen_expanded(v.view, head) {
        return Ok(None);
    }
    let mut pool = MatPool::new(alloc);
    let number = induced(alloc, v.grammar, p, deps, &mut pool)?;
    let matrix = pool.get(number);
    Ok(first_difference(rows_of(deps, head), matrix.rows))
}

/// The least production that disagrees with its seen, expanded head, with the first pair on which it does, or `None` where there is none. Fails only for want of memory.
///
/// Cost: one pass through each body of a seen, expanded module.
pub fn least_disagreement(
    alloc: Global,
    v: GrammarView<'_>,
    deps: &Deps,
) -> Result<Option<Disagreement>, AllocError>
    requires rows { (m : ℕ) → IsSeenModule v.grammar.now.core v.view.now.core m → HasRows v.grammar.now.core deps.now m }
    ensures { IfOk result (λ o. MatchOption o ((p : ℕ) → p < length v.entry.grammar.now.core.productions →
        AgreesIfExpanded v.entry.grammar.now.core v.entry.view.now.core (pairs_of deps.now) p) (λ x. IsLeastDisagreement v.entry.grammar.now.core v.entry.view.now.core (pairs_of deps.now) x)) }
{
    for k in 0..v.grammar.productions().len() {
        let production = ProdNo(k as u16);
        if let Some(pair) = first_pair(alloc, v, deps, production)? {
            return Ok(Some(Disagreement { production, pair }));
        }
    }
    Ok(None)
}
