// The default view of a grammar, and whether it is safe.
ghost use Rattle.std.specs.Prelude.{◌≡◌, ◌↔◌, IfOk, IsTrue};
ghost use Rattle.wf_model.specs.Safe.{IsSafe};
ghost use Rattle.wf_model.specs.View.{IsDefaultView};
ghost use Rattle.wf_view.specs.Held.{IsHeldFor};
ghost use Rattle.package_file.specs.Packed.{empty_parts, IsSafeByDefault};

use std::alloc::{AllocError, Global};
use wf_accept::Accepted;
use wf_model::{Seq, ViewParts};
use wf_safe::{SafeFault, SafeView};
use wf_spec::Grammar;
use wf_view::View;

/// The view of parts that name nothing.
fn view_of_empty(alloc: Global, g: &Grammar, parts: &ViewParts) -> Result<View, AllocError>
    requires { parts.now ≡ empty_parts }
    ensures default { IfOk result (λ v. IsDefaultView g.now.core v.core) }
    ensures held { IfOk result (λ v. IsHeldFor g.now.core v) }
{
    let _formed = g.start();
    match View::build(alloc, g, parts) {
        Ok(view) => Ok(view),
        // parts that name nothing break no rule, so memory was refused
        Err(_) => Err(AllocError),
    }
}

/// The default view of a grammar: it expands every composite module, and gives no pairs.
///
/// The only error is that memory is refused. Cost: that of `View::build`.
pub fn view_by_default(alloc: Global, g: &Grammar) -> Result<View, AllocError>
    ensures default { IfOk result (λ v. IsDefaultView g.now.core v.core) }
    ensures held { IfOk result (λ v. IsHeldFor g.now.core v) }
{
    let parts = ViewParts {
        expand: None,
        deps: Seq::from_vec(Vec::new(alloc)),
    };
    view_of_empty(alloc, g, &parts)
}

/// Whether a view of an accepted grammar is safe.
fn is_safe(alloc: Global, accepted: &Accepted, view: View) -> Result<bool, AllocError>
    requires held { IsHeldFor accepted.now.grammar.core view }
    ensures { IfOk result (λ is. IsTrue is ↔ IsSafe accepted.now.grammar.core view.core) }
{
    match SafeView::of(alloc, accepted, view) {
        Ok(safe) => {
            let _facts = safe.accepted();
            Ok(true)
        }
        Err(SafeFault::Unsafe { witness: _ }) => Ok(false),
        Err(SafeFault::NoMemory) => Err(AllocError),
    }
}

/// Whether the default view of an accepted grammar is safe.
///
/// The only error is that memory is refused. Cost: those of `View::build` and of `SafeView::of`.
pub fn is_safe_by_default(alloc: Global, accepted: &Accepted) -> Result<bool, AllocError>
    ensures { IfOk result (λ is. IsTrue is ↔ IsSafeByDefault accepted.now.grammar.core) }
{
    let view = view_by_default(alloc, accepted.grammar())?;
    is_safe(alloc, accepted, view)
}

/// A view of an accepted grammar that is known to be safe, with the pairs that every expansion of a seen module joins.
///
/// The only error is that memory is refused. Cost: that of `SafeView::of`.
pub fn known_safe<'a>(
    alloc: Global,
    accepted: &'a Accepted,
    view: View,
) -> Result<SafeView<'a>, AllocError>
    requires held { IsHeldFor accepted.now.grammar.core view }
    requires safe { IsSafe accepted.now.grammar.core view.core }
    ensures accepted { IfOk result (λ v. v.accepted ≡ accepted.now) }
    ensures view { IfOk result (λ v. v.view ≡ view) }
{
    match SafeView::of(alloc, accepted, view) {
        Ok(safe) => Ok(safe),
        Err(SafeFault::Unsafe { witness: _ }) => unreachable!(),
        Err(SafeFault::NoMemory) => Err(AllocError),
    }
}
