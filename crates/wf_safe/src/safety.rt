// Whether a view is safe.
ghost use Rattle.std.specs.Prelude.{IfOk, IfErr};
ghost use Rattle.wf_model.specs.Safe.{IsSafe};
ghost use Rattle.wf_check.specs.Proper.{IsRankingOf};
ghost use Rattle.wf_safe.specs.Full.{AreFullRows};
ghost use Rattle.wf_safe.specs.Witness.{IsFault};

mod choices;
mod difference;
mod disagreement;
mod expanded;
mod induced;
mod ranked;
mod shown;
mod telling;

use crate::fault::SafeFault;
use crate::full::FullDeps;
use crate::safety::disagreement::least_disagreement;
use crate::safety::ranked::induce_all;
use crate::safety::shown::shown_deps;
use crate::safety::telling::witness_of;
use std::alloc::Global;
use wf_check::Proper;
use wf_view::GrammarView;

/// The full assignment of a view, which there is exactly if the view is safe; or a witness of two expansions that disagree.
///
/// Each seen, expanded module is chosen the production that attains its rank, and so has the pairs that the body of this production joins. The view is safe exactly if each production of such a module joins the pairs of its head.
///
/// Errors: `Unsafe` with the least production that does not join the pairs of its head, and the first pair, by input and then output, on which the two disagree; `NoMemory` may come at any time.
///
/// Cost: for each seen, expanded module and each of its productions one pass through a body, with words of 64 bits, and for each rank one look at each module.
///
/// Source of the idea: Bao, Davidson, Milo, "Labeling Workflow Views with Fine-Grained Dependencies", VLDB 2012 (safe views and full dependency assignments).
pub fn full_deps(alloc: Global, v: GrammarView<'_>, proper: &Proper) -> Result<FullDeps, SafeFault>
    requires ranking { IsRankingOf v.grammar.now.core proper.now }
    ensures safe { IfOk result (λ f. IsSafe v.entry.grammar.now.core v.entry.view.now.core) }
    ensures full { IfOk result (λ f. AreFullRows v.entry.grammar.now.core v.entry.view.now.core f) }
    ensures refused { IfErr result (λ e. IsFault v.entry.grammar.now.core v.entry.view.now.core proper.now e) }
{
    let mut deps = shown_deps(alloc, v)?;
    induce_all(alloc, v, proper, &mut deps)?;
    match least_disagreement(alloc, v, &deps)? {
        Some(found) => {
            let witness = witness_of(alloc, v, proper, found)?;
            Err(SafeFault::Unsafe { witness })
        }
        None => Ok(FullDeps::of_rows(deps)),
    }
}
