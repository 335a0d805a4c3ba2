// A grammar with a view of it, as one value.
ghost use Rattle.std.specs.Prelude.{◌≡◌, length};
ghost use Rattle.wf_view.specs.Held.{IsHeldFor};

use crate::view::View;
use wf_spec::Grammar;

/// A grammar, and a view of it.
#[derive(Clone, Copy)]
pub struct GrammarView<'v> {
    pub grammar: &'v Grammar,
    pub view: &'v View,
    pub ghost held: { ∥ IsHeldFor grammar.now.core view.now ∥₁ },
    pub ghost one_flag_each: { length view.now.seen ≡ length grammar.now.core.modules },
    pub ghost rows_each: { length view.now.rows ≡ length grammar.now.core.modules },
}
