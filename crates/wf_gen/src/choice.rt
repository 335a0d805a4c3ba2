// What the draws of a turn pick.
ghost use Rattle.std.specs.Prelude.{◌≡◌, ◌<◌, ◌||◌, ◌==◌, ◌%◌, not, length, option_map};
ghost use Rattle.wf_model.specs.Grammar.{IsComposite};
ghost use Rattle.label_model.specs.Continuing.{continuing};
ghost use Rattle.wf_gen.specs.Draws.{draw, drawn};
ghost use Rattle.wf_gen.specs.Turns.{alternative_picked, production_by, turn_picked};
ghost use Rattle.wf_gen.specs.Held.{AreComposite, all_pending, turn_of};

use crate::pending::Pending;
use rand_core::utils::NextWord;
use rand_pcg::Pcg32;
use wf_recur::Linear;
use wf_spec::{Grammar, ModNo, ProdNo};

/// The next draw.
pub(crate) fn draw(draws: &mut Pcg32) -> u32
    ensures draw { result ≡ draw draws.old }
    ensures drawn { draws.new ≡ drawn draws.old }
{
    draws.next_word()
}

/// A turn: the place of a pending instance in the list, the instance, and the production by which it is expanded.
#[derive(Clone, Copy, Drop)]
pub(crate) struct Turn {
    pub(crate) place: usize,
    pub(crate) instance: Pending,
    pub(crate) production: ProdNo,
}

/// The production of a composite module that a draw picks among all of the module.
fn alternative(g: &Grammar, m: ModNo, e: u32) -> ProdNo
    requires in_range { m.0 < length g.now.core.modules }
    requires composite { IsComposite g.now.core m.0 }
    ensures { result.0 ≡ alternative_picked g.now.core m.0 e }
{
    let all = g.alternatives(m);
    let place = (e / 4) as usize % all.len();
    all[place]
}

/// The production of the continuing step of a module, and None where it stands on no cycle.
fn continuing_production(g: Linear<'_>, m: ModNo) -> Option<ProdNo>
    requires in_range { m.0 < length g.grammar.now.core.modules }
    ensures { option_map (λ p. p.0) result ≡ option_map (λ s. s.production) (continuing g.entry.grammar.now.core m.0) }
{
    // A grammar is well-formed.
    let _formed = g.grammar.start();
    match g.cycles.on(m) {
        Some(on) => Some(on.step.production),
        None => None,
    }
}

/// The production by which an instance of a composite module is expanded: that of its continuing step, where it has one and stays on its cycle, and elsewhere the one that the draw picks.
fn production(g: Linear<'_>, m: ModNo, stays: bool, e: u32) -> ProdNo
    requires in_range { m.0 < length g.grammar.now.core.modules }
    requires composite { IsComposite g.grammar.now.core m.0 }
    ensures { result.0 ≡ production_by (continuing g.entry.grammar.now.core m.0) stays (alternative_picked g.entry.grammar.now.core m.0 e) }
{
    if stays && let Some(production) = continuing_production(g, m) {
        return production;
    }
    alternative(g.grammar, m, e)
}

/// Whether a module stays on its cycle, by the number of pending instances and a draw.
fn stays_on_cycle(count: usize, e: u32) -> bool
    ensures { result ≡ ((count == 1) || not (e % 4 == 0)) }
{
    count == 1 || e % 4 != 0
}

/// The turn that two draws pick: `d` the place of an instance in the list, and `e` whether its module stays on its cycle, and which production it takes if not.
pub(crate) fn pick(g: Linear<'_>, pending: &[Pending], d: u32, e: u32) -> Turn
    requires some { 0 < length pending.now }
    requires composite { AreComposite g.grammar.now.core (all_pending pending.now) }
    ensures turn { turn_of result ≡ turn_picked g.entry.grammar.now.core (all_pending pending.now) d e }
    ensures place { result.place < length pending.now }
    ensures production { result.production.0 < length g.entry.grammar.now.core.productions }
{
    let place = d as usize % pending.len();
    let instance = pending[place];
    let stays = stays_on_cycle(pending.len(), e);
    let production = production(g, instance.module, stays, e);
    Turn {
        place,
        instance,
        production,
    }
}
