// A strictly linear grammar with its cycles, as one value.
ghost use Rattle.std.specs.Prelude.{◌≡◌};
ghost use Rattle.wf_model.specs.Linear.{IsLinear};
ghost use Rattle.wf_recur.specs.Cycles.{AreCyclesOf};

use crate::table::Cycles;
use wf_spec::Grammar;

/// A strictly linear grammar, and its cycles.
#[derive(Clone, Copy)]
pub struct Linear<'g> {
    pub grammar: &'g Grammar,
    pub cycles: &'g Cycles,
    pub ghost linear: { IsLinear grammar.now.core },
    pub ghost cycled: { ∥ AreCyclesOf grammar.now.core cycles.now ∥₁ },
}
