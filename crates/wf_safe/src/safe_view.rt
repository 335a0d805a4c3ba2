// A safe view of an accepted grammar.
ghost use Rattle.std.specs.Prelude.{◌≡◌, IfOk, IfErr};
ghost use Rattle.wf_view.specs.Held.{IsHeldFor};
ghost use Rattle.wf_safe.specs.Full.{AreFullRows};
ghost use Rattle.wf_safe.specs.SafeViews.{IsSafeView};
ghost use Rattle.wf_safe.specs.Witness.{IsFault};

use crate::fault::SafeFault;
use crate::full::FullDeps;
use crate::safety::full_deps;
use std::alloc::Global;
use std::marker::Model;
use wf_accept::Accepted;
use wf_recur::Linear;
use wf_spec::Grammar;
use wf_view::{GrammarView, View};

/// A safe view of an accepted grammar, with the pairs that every expansion of a seen module joins. The grammar is borrowed, so that several views of it may stand side by side.
#[derive(Drop)]
pub struct SafeView<'a> {
    accepted: &'a Accepted,
    view: View,
    full: FullDeps,
}

impl<'a> Model for SafeView<'a> {
    ghost use Rattle.wf_safe.specs.SafeViews.{SafeViewValue, IsSafeView};

    ghost Value = { SafeViewValue };

    ghost view = { λ v. record { accepted = v.accepted.now; view = v.view; full = v.full } };

    ghost invariant = { λ v. IsSafeView (record { accepted = v.accepted.now; view = v.view; full = v.full }) };
}

impl<'a> SafeView<'a> {
    /// The view, with the pairs that every expansion of a seen module joins, if it is safe.
    ///
    /// Errors and cost: those of `full_deps`.
    pub fn of(alloc: Global, accepted: &'a Accepted, view: View) -> Result<SafeView<'a>, SafeFault>
        requires { IsHeldFor accepted.now.grammar.core view }
        ensures accepted { IfOk result (λ v. v.accepted ≡ accepted.now) }
        ensures view { IfOk result (λ v. v.view ≡ view) }
        ensures refused { IfErr result (λ f. IsFault accepted.now.grammar.core view.core accepted.now.ranking f) }
    {
        let sight = GrammarView {
            grammar: accepted.grammar(),
            view: &view,
        };
        let full = full_deps(alloc, sight, accepted.ranking())?;
        Ok(SafeView {
            accepted,
            view,
            full,
        })
    }

    /// The grammar, with its ranks and its cycles.
    pub fn accepted(&self) -> &'a Accepted
        ensures accepted { result.now ≡ self.now.accepted }
        ensures safe { IsSafeView self.now }
    {
        self.accepted
    }

    /// The grammar alone.
    pub fn grammar(&self) -> &'a Grammar
        ensures grammar { result.now ≡ self.now.accepted.grammar }
        ensures safe { IsSafeView self.now }
    {
        self.accepted.grammar()
    }

    /// The grammar with its cycles.
    pub fn linear(&self) -> Linear<'a>
        ensures grammar { result.grammar.now ≡ self.now.accepted.grammar }
        ensures cycles { result.cycles.now ≡ self.now.accepted.cycles }
        ensures safe { IsSafeView self.now }
    {
        self.accepted.linear()
    }

    /// The view.
    pub fn view(&self) -> &View
        ensures view { result.now ≡ self.now.view }
        ensures safe { IsSafeView self.now }
    {
        &self.view
    }

    /// The view with its grammar.
    pub fn sight(&self) -> GrammarView<'_>
        ensures grammar { result.grammar.now ≡ self.now.accepted.grammar }
        ensures view { result.view.now ≡ self.now.view }
        ensures safe { IsSafeView self.now }
    {
        GrammarView {
            grammar: self.accepted.grammar(),
            view: &self.view,
        }
    }

    /// The pairs that every expansion of a seen module joins.
    pub fn full(&self) -> &FullDeps
        ensures full { result.now ≡ self.now.full }
        ensures safe { IsSafeView self.now }
    {
        &self.full
    }
}
