// The comparison of two views.
ghost use Rattle.std.specs.Prelude.{◌≡◌, ℕ, IfOk, IfErr};
ghost use Rattle.wf_model.specs.Meaning.{pairs_of};
ghost use Rattle.wf_model.specs.View.{IsSeenModule};
ghost use Rattle.wf_body.specs.Matrices.{HasRows};
ghost use Rattle.compare_model.specs.Coarser.{IsCoarser};
ghost use Rattle.compare_model.specs.Pairs.{ModulePair as PairSeen, IsDenied, DeniesNone};
ghost use Rattle.compare_model.specs.Comparison.{IsCompared};
ghost use Rattle.wf_compare.specs.Comparing.{IsComparedIn, IsRefused};

use crate::coarser::first_expanded_alone;
use crate::fault::CompareFault;
use crate::pairs::{Difference, first_pair};
use crate::run::{ShownRun, shown_by};
use compare_model::Compared;
use std::alloc::{AllocError, Global};
use wf_safe::{FullDeps, SafeView};
use wf_spec::Seq;
use wf_view::GrammarView;

/// What is told of a coarser view that denies no pair: the first that it adds; else that it adds none.
fn compared_extra(coarse: GrammarView<'_>, full: &FullDeps) -> Compared
    requires rows { (k : ℕ) → IsSeenModule coarse.grammar.now.core coarse.view.now.core k → HasRows coarse.grammar.now.core full.now k }
    requires denies { DeniesNone coarse.grammar.now.core coarse.view.now.core (pairs_of full.now) }
    ensures { IsCompared coarse.entry.grammar.now.core coarse.entry.view.now.core (pairs_of full.now) result }
{
    match first_pair(coarse, full, Difference::Added) {
        Some(pair) => Compared::Extra {
            module: pair.module,
            input: pair.ports.input,
            output: pair.ports.output,
        },
        None => Compared::Exact,
    }
}

/// What is told of a coarser view. Memory is asked for only where it denies a pair.
fn compared(alloc: Global, coarse: GrammarView<'_>, full: &FullDeps) -> Result<Compared, AllocError>
    requires { (k : ℕ) → IsSeenModule coarse.grammar.now.core coarse.view.now.core k → HasRows coarse.grammar.now.core full.now k }
    ensures told { IfOk result (λ c. IsCompared coarse.entry.grammar.now.core coarse.entry.view.now.core (pairs_of full.now) c) }
    ensures denies { IfErr result (λ _. (x : PairSeen) × IsDenied coarse.entry.grammar.now.core coarse.entry.view.now.core (pairs_of full.now) x) }
{
    match first_pair(coarse, full, Difference::Denied) {
        Some(pair) => {
            let ShownRun { instance, run } = shown_by(alloc, coarse, pair.module)?;
            Ok(Compared::Denied {
                module: pair.module,
                input: pair.ports.input,
                output: pair.ports.output,
                instance,
                run: Seq::from_vec(run),
            })
        }
        None => Ok(compared_extra(coarse, full)),
    }
}

/// What the comparison of a fine and a coarse view of one grammar comes to: whether the coarse view ever denies what the fine one affirms.
///
/// The pairs of a border module, one that the coarse view sees and does not expand, are those that the coarse view shows; under the fine view they are those that every expansion of the module joins. The answer is the first pair that the coarse view denies, by module, input and output, with a run that has an instance of the module which both views see; else the first pair that it adds; else that there is none of either.
///
/// Errors: `NotCoarser` with the least module that the coarse view expands and the fine one does not, whether or not they see it. `NoMemory` comes only where a pair is denied.
///
/// Cost: one look at each module, and two at each row of each border module. Where a pair is denied, a look at each position of each body of a module that the coarse view expands, and linear in the run.
///
/// Source of the idea: Bao, Davidson, Milo, "Labeling Workflow Views with Fine-Grained Dependencies", VLDB 2012 (views and their full dependency assignments).
pub fn compare(
    alloc: Global,
    fine: &SafeView<'_>,
    coarse: &SafeView<'_>,
) -> Result<Compared, CompareFault>
    requires same { coarse.now.accepted.grammar.core ≡ fine.now.accepted.grammar.core }
    ensures coarser { IfOk result (λ _. IsCoarser coarse.now.view.core fine.now.view.core) }
    ensures compared { IfOk result (λ c. IsComparedIn fine.now coarse.now c) }
    ensures refused { IfErr result (λ f. IsRefused fine.now coarse.now f) }
{
    let sight = coarse.sight();
    if let Some(module) = first_expanded_alone(sight, fine.view()) {
        return Err(CompareFault::NotCoarser { module });
    }
    match compared(alloc, sight, fine.full()) {
        Ok(told) => Ok(told),
        Err(_) => Err(CompareFault::NoMemory),
    }
}
