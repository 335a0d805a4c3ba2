// The least composite module that is not marked.
ghost use Rattle.std.specs.Prelude.{◌≡◌, true, false, length, get_or, MatchOption};
ghost use Rattle.wf_model.specs.WellFormed.{IsWellFormed};
ghost use Rattle.wf_check.specs.Improper.{IsLeastWithout, OfAllComposite};

use wf_spec::{Grammar, ModNo};

/// The least composite module that is not marked, or `None` where all are.
pub fn least_unmarked(g: &Grammar, marks: &[bool]) -> Option<ModNo>
    requires { length marks.now ≡ length g.now.core.modules }
    ensures least { MatchOption result (OfAllComposite g.now.core (λ m. get_or marks.now m false ≡ true))
        (λ m. IsLeastWithout g.now.core (λ k. get_or marks.now k false ≡ true) m.0) }
    ensures formed { IsWellFormed g.now.core }
{
    for m in 0..g.modules().len() {
        let number = ModNo(m as u16);
        if !marks[m] && g.is_composite(number) {
            return Some(number);
        }
    }
    None
}
