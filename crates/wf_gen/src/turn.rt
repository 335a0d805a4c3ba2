// The turns of a generated run.
ghost use Rattle.std.specs.Prelude.{◌≡◌, ◌<◌, [], length, IfOk, OnOk, OnErr};
ghost use Rattle.wf_gen.specs.Turns.{after_turn, first_state};
ghost use Rattle.wf_gen.specs.Held.{AreComposite, CanTake, IsDrawn, state_of, turn_of};

use crate::choice::{Turn, draw, pick};
use crate::pending::{Pending, put_composite, replace};
use rand_pcg::Pcg32;
use std::alloc::AllocError;
use wf_recur::Linear;
use wf_spec::Grammar;

/// A run between two turns: how many instances were made, those that are pending, and the generator of the draws that follow.
#[derive(Drop)]
pub(crate) struct State {
    pub(crate) made: u32,
    pub(crate) pending: Vec<Pending>,
    pub(crate) draws: Pcg32,
}

/// A turn that is drawn and not taken: how many children it makes, and the generator of the draws that follow.
#[derive(Drop)]
pub(crate) struct Drawn {
    pub(crate) turn: Turn,
    pub(crate) count: usize,
    pub(crate) draws: Pcg32,
}

/// Starts the run, in which nothing was made: its root is made. The only error is that memory is refused, and then the run is as it was.
pub(crate) fn start(g: &Grammar, state: &mut State) -> Result<(), AllocError>
    requires { (state_of state.old).pending ≡ [] }
    ensures started { OnOk result (state_of state.new ≡ first_state g.now.core state.old.draws) }
    ensures unchanged { OnErr result (state_of state.new ≡ state_of state.old) }
{
    state.pending.reserve(1)?;
    put_composite(g, &mut state.pending, 0, g.start());
    state.made = 1;
    Ok(())
}

/// Draws twice, for the next turn. Gives None where its event would pass the limit of instances: then the two draws are spent. Elsewhere the run is as it was. The only error is that memory is refused, and then the run is as it was.
pub(crate) fn draw_turn(
    g: Linear<'_>,
    most: u32,
    state: &mut State,
) -> Result<Option<Drawn>, AllocError>
    requires some { 0 < length state.old.pending.items }
    requires composite { AreComposite g.grammar.now.core (state_of state.old).pending }
    ensures drawn { IfOk result (λ d. IsDrawn g.entry.grammar.now.core most (state_of state.old) d (state_of state.new)) }
    ensures unchanged { OnErr result (state_of state.new ≡ state_of state.old) }
{
    let mut draws = state.draws.clone()?;
    let d = draw(&mut draws);
    let e = draw(&mut draws);
    let turn = pick(g, &state.pending, d, e);
    let count = g.grammar.production(turn.production).positions().len();
    if (most as usize) < count.saturating_add(state.made as usize) {
        state.draws = draws;
        return Ok(None);
    }
    Ok(Some(Drawn { turn, count, draws }))
}

/// Takes a turn that was drawn. The only error is that memory is refused, and then the run is as it was.
pub(crate) fn take_turn(g: &Grammar, state: &mut State, drawn: Drawn) -> Result<(), AllocError>
    requires { CanTake g.now.core (state_of state.old) drawn }
    ensures taken { OnOk result (state_of state.new ≡ after_turn g.now.core (state_of state.old) (turn_of drawn.turn) drawn.draws) }
    ensures unchanged { OnErr result (state_of state.new ≡ state_of state.old) }
{
    replace(
        g,
        &mut state.pending,
        drawn.turn.place,
        drawn.turn.production,
        state.made,
    )?;
    state.made += drawn.count as u32;
    state.draws = drawn.draws;
    Ok(())
}
