// A strictly linear grammar with a view of it, as one value.
ghost use Rattle.std.specs.Prelude.{◌≡◌, length};
ghost use Rattle.wf_view.specs.Held.{IsHeldFor};

use wf_recur::Linear;
use wf_view::View;

/// A strictly linear grammar with its cycles, and a view of it.
#[derive(Clone, Copy)]
pub(crate) struct Sight<'g, 'v> {
    pub(crate) linear: Linear<'g>,
    pub(crate) view: &'v View,
    pub(crate) ghost held: { ∥ IsHeldFor linear.grammar.now.core view.now ∥₁ },
    pub(crate) ghost one_flag_each: { length view.now.seen ≡ length linear.grammar.now.core.modules },
}
