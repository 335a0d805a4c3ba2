// The first pair of a border module that a coarse view denies, or adds.
ghost use Rattle.std.specs.Prelude.{◌≡◌, ◌<◌, ◌↔◌, ℕ, IsTrue, length, MatchOption};
ghost use Rattle.wf_model.specs.Meaning.{pairs_of};
ghost use Rattle.wf_model.specs.View.{IsSeenModule};
ghost use Rattle.wf_body.specs.Matrices.{HasRows};
ghost use Rattle.compare_model.specs.Coarser.{IsBorder};
ghost use Rattle.compare_model.specs.Pairs.{ModulePair as PairSeen, IsFirst};
ghost use Rattle.wf_compare.specs.Flags.{is_border};
ghost use Rattle.wf_compare.specs.Pairs.{Differs, HasNoneOf, IsFirstOf, pair_of};

use crate::rows::{PortPair, first_more};
use wf_safe::FullDeps;
use wf_spec::ModNo;
use wf_view::{GrammarView, View};

/// How a coarse view differs from a fine one at a pair: the fine one has it and the coarse one denies it, or the coarse one adds it.
#[derive(Clone, Copy, Drop)]
pub enum Difference {
    Denied,
    Added,
}

/// A pair of ports of a module.
#[derive(Clone, Copy, Drop)]
pub struct ModulePair {
    pub module: ModNo,
    pub ports: PortPair,
}

/// Whether a view sees a module and does not expand it.
fn is_border(view: &View, m: ModNo) -> bool
    requires { m.0 < length view.now.seen }
    ensures { result ≡ is_border view.now m.0 }
{
    view.seen(m) && !view.expanded(m)
}

/// The first pair of a border module at which the coarse view differs in this way from the rows of the fine one; none of another module.
fn first_of(coarse: GrammarView<'_>, full: &FullDeps, way: Difference, m: ModNo) -> Option<PortPair>
    requires rows { (k : ℕ) → IsSeenModule coarse.grammar.now.core coarse.view.now.core k → HasRows coarse.grammar.now.core full.now k }
    requires in_range { m.0 < length coarse.grammar.now.core.modules }
    ensures { MatchOption result (HasNoneOf (Differs way coarse.entry.grammar.now.core coarse.entry.view.now.core (pairs_of full.now)) m.0)
        (λ x. IsFirstOf (Differs way coarse.entry.grammar.now.core coarse.entry.view.now.core (pairs_of full.now)) m.0 x.input.0 x.output.0) }
{
    // A module has at most 64 inputs.
    let _inputs = coarse.grammar.input_count(m);
    if !is_border(coarse.view, m) {
        return None;
    }
    let fine = full.rows(m);
    let shown = coarse.view.shown_rows(m);
    match way {
        Difference::Denied => first_more(fine, shown),
        Difference::Added => first_more(shown, fine),
    }
}

/// The first pair, by module, input and output, at which the coarse view differs in this way from the rows of the fine one.
///
/// Cost: one look at each row of each border module. Takes no memory.
pub fn first_pair(coarse: GrammarView<'_>, full: &FullDeps, way: Difference) -> Option<ModulePair>
    requires rows { (k : ℕ) → IsSeenModule coarse.grammar.now.core coarse.view.now.core k → HasRows coarse.grammar.now.core full.now k }
    ensures { MatchOption result ((x : PairSeen) → Differs way coarse.entry.grammar.now.core coarse.entry.view.now.core (pairs_of full.now) x → ⊥)
        (λ p. IsFirst (Differs way coarse.entry.grammar.now.core coarse.entry.view.now.core (pairs_of full.now)) (pair_of p.module p.ports.input p.ports.output)) }
{
    for k in 0..coarse.grammar.modules().len() {
        let module = ModNo(k as u16);
        if let Some(ports) = first_of(coarse, full, way, module) {
            return Some(ModulePair { module, ports });
        }
    }
    None
}
