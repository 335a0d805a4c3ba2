// A package: an accepted grammar with good loops, whose default view is safe.
ghost use Rattle.std.specs.Prelude.{◌≡◌, IfOk, option_map};
ghost use Rattle.wf_model.specs.Steps.{step_of};
ghost use Rattle.wf_model.specs.View.{IsDefaultView};
ghost use Rattle.wf_model.specs.DefaultView.{default_view};
ghost use Rattle.wf_loops.specs.Looped.{loop_in};
ghost use Rattle.package_file.specs.Packed.{IsSafeByDefault, IsHeldPackage, GiveSameVerdicts};

use crate::by_default::{known_safe, view_by_default};
use std::alloc::{AllocError, Global};
use std::marker::Model;
use wf_loops::Looped;
use wf_model::{ModNo, Step};
use wf_safe::SafeView;
use wf_spec::Grammar;

/// A package: an accepted grammar with good loops, whose default view is safe.
#[derive(Drop)]
pub struct Package {
    looped: Looped,
}

impl Model for Package {
    ghost use Rattle.wf_loops.specs.Looped.{LoopedValue};
    ghost use Rattle.package_file.specs.Packed.{IsHeldPackage};

    ghost Value = { LoopedValue };

    ghost view = { λ p. p.looped };

    ghost invariant = { λ p. IsHeldPackage p.looped };
}

impl Package {
    /// A grammar with good loops, of which it is known that its default view is safe.
    pub(crate) fn of_looped(looped: Looped) -> Package
        requires { IsSafeByDefault looped.accepted.grammar.core }
        ensures { result ≡ looped }
    {
        let _good = looped.accepted();
        Package { looped }
    }

    /// The grammar with its loops.
    pub fn looped(&self) -> &Looped
        ensures looped { result.now ≡ self.now }
        ensures held { IsHeldPackage self.now }
    {
        &self.looped
    }

    /// The grammar alone.
    pub fn grammar(&self) -> &Grammar
        ensures grammar { result.now ≡ self.now.accepted.grammar }
        ensures held { IsHeldPackage self.now }
    {
        self.looped.grammar()
    }

    /// The loop step of a module: none exactly where the module has no entry. Takes no memory.
    pub fn loop_step(&self, m: ModNo) -> Option<Step>
        ensures { option_map step_of result ≡ loop_in self.now.steps m.0 }
    {
        self.looped.loop_step(m)
    }

    /// The default view of the grammar, which is safe.
    ///
    /// The only error is that memory is refused. Cost: those of `View::build` and of `SafeView::of`.
    pub fn safe_view(&self, alloc: Global) -> Result<SafeView<'_>, AllocError>
        ensures accepted { IfOk result (λ v. v.accepted ≡ self.now.accepted) }
        ensures default { IfOk result (λ v. IsDefaultView self.now.accepted.grammar.core v.view.core) }
        ensures verdicts { IfOk result (λ v. GiveSameVerdicts self.now.accepted.grammar.core v.view.core (default_view self.now.accepted.grammar.core)) }
    {
        let accepted = self.looped.accepted();
        let view = view_by_default(alloc, accepted.grammar())?;
        known_safe(alloc, accepted, view)
    }
}
