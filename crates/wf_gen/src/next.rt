// What comes next of a generated run: an event with its names, or its line.
ghost use Rattle.std.specs.Prelude.{◌≡◌, ◌<◌, ◌++◌, [], IfOk, OnOk, OnErr};
ghost use Rattle.wf_model.specs.declared.event.Event.TheVariants.{Start};
ghost use Rattle.numbered_names.specs.Names.{numbered_name};
ghost use Rattle.wf_gen.specs.Turns.{after_turn, first_state};
ghost use Rattle.wf_gen.specs.Coming.{IsNext, IsNextLine, coming};
ghost use Rattle.wf_gen.specs.Held.{CanTake, IsKept, IsTurnOrEnd, event_drawn, state_of, turn_of};
ghost use Rattle.wf_gen.specs.Lines.{event_line};

use crate::text::{append_expand, append_start};
use crate::turn::{Drawn, State, draw_turn, start, take_turn};
use numbered_names::{expand_event, start_event};
use std::alloc::{AllocError, Global};
use wf_recur::Linear;
use wf_spec::{Event, Grammar};

/// The turn that comes next in a run that has its start, of which so many turns are left. None where the run ends: then it is known that no turn comes. Elsewhere the run is as it was. The only error is that memory is refused, and then the run is as it was.
fn coming_turn(
    g: Linear<'_>,
    most: u32,
    left: &mut u32,
    state: &mut State,
) -> Result<Option<Drawn>, AllocError>
    requires kept { IsKept g.grammar.now.core most (state_of state.old) }
    requires begun { 0 < state.old.made }
    ensures turn { IfOk result (λ d. IsTurnOrEnd g.entry.grammar.now.core most left.old (state_of state.old) d left.new (state_of state.new)) }
    ensures kept { OnOk result (IsKept g.entry.grammar.now.core most (state_of state.new)) }
    ensures same_left { OnErr result (left.new ≡ left.old) }
    ensures same_state { OnErr result (state_of state.new ≡ state_of state.old) }
{
    // A grammar is well-formed.
    let _formed = g.grammar.start();
    if *left == 0 {
        return Ok(None);
    }
    if state.pending.is_empty() {
        return Ok(None);
    }
    match draw_turn(g, most, state)? {
        Some(drawn) => Ok(Some(drawn)),
        None => {
            *left = 0;
            Ok(None)
        }
    }
}

/// The next event of a run of which so many turns are left; None where it ends. The only error is that memory is refused, and then the run is as it was.
pub(crate) fn next_event(
    alloc: Global,
    g: Linear<'_>,
    most: u32,
    left: &mut u32,
    state: &mut State,
) -> Result<Option<Event>, AllocError>
    requires { IsKept g.grammar.now.core most (state_of state.old) }
    ensures next { IfOk result (λ e. IsNext (coming g.entry.grammar.now.core most left.old (state_of state.old)) e (coming g.entry.grammar.now.core most left.new (state_of state.new))) }
    ensures kept { OnOk result (IsKept g.entry.grammar.now.core most (state_of state.new)) }
    ensures same_left { OnErr result (left.new ≡ left.old) }
    ensures same_state { OnErr result (state_of state.new ≡ state_of state.old) }
{
    // A grammar is well-formed.
    let _formed = g.grammar.start();
    if state.made == 0 {
        let event = start_event(alloc)?;
        start(g.grammar, state)?;
        return Ok(Some(event));
    }
    let Some(drawn) = coming_turn(g, most, left, state)? else {
        return Ok(None);
    };
    let event = expand_event(
        alloc,
        drawn.turn.instance.number,
        drawn.turn.production,
        state.made,
        drawn.count,
    )?;
    take_turn(g.grammar, state, drawn)?;
    *left -= 1;
    Ok(Some(event))
}

/// Appends the line of the next event of a run of which so many turns are left, and gives whether there is one. The only error is that memory is refused, and then the run and the text are as they were.
pub(crate) fn next_line(
    g: Linear<'_>,
    most: u32,
    left: &mut u32,
    state: &mut State,
    to: &mut Vec<u8>,
) -> Result<bool, AllocError>
    requires { IsKept g.grammar.now.core most (state_of state.old) }
    ensures next { IfOk result (λ given. IsNextLine (coming g.entry.grammar.now.core most left.old (state_of state.old)) given
        (coming g.entry.grammar.now.core most left.new (state_of state.new)) to.old.items to.new.items) }
    ensures kept { OnOk result (IsKept g.entry.grammar.now.core most (state_of state.new)) }
    ensures same_left { OnErr result (left.new ≡ left.old) }
    ensures same_state { OnErr result (state_of state.new ≡ state_of state.old) }
    ensures same_text { OnErr result (to.new.items ≡ to.old.items) }
{
    // A grammar is well-formed.
    let _formed = g.grammar.start();
    if state.made == 0 {
        start_line(g.grammar, state, to)?;
        return Ok(true);
    }
    let Some(drawn) = coming_turn(g, most, left, state)? else {
        return Ok(false);
    };
    turn_line(g.grammar, state, drawn, to)?;
    *left -= 1;
    Ok(true)
}

/// Starts the run, in which nothing was made, and appends the line of its start event. The only error is that memory is refused, and then the run and the text are as they were.
fn start_line(g: &Grammar, state: &mut State, to: &mut Vec<u8>) -> Result<(), AllocError>
    requires { (state_of state.old).pending ≡ [] }
    ensures started { OnOk result (state_of state.new ≡ first_state g.now.core state.old.draws) }
    ensures line { OnOk result (to.new.items ≡ to.old.items ++ event_line (Start (numbered_name 0))) }
    ensures same_state { OnErr result (state_of state.new ≡ state_of state.old) }
    ensures same_text { OnErr result (to.new.items ≡ to.old.items) }
{
    let begun = to.len();
    append_start(begun, to)?;
    if let Err(fault) = start(g, state) {
        to.truncate(begun);
        return Err(fault);
    }
    Ok(())
}

/// Takes a turn that was drawn, and appends the line of its event. The only error is that memory is refused, and then the run and the text are as they were.
fn turn_line(
    g: &Grammar,
    state: &mut State,
    drawn: Drawn,
    to: &mut Vec<u8>,
) -> Result<(), AllocError>
    requires { CanTake g.now.core (state_of state.old) drawn }
    ensures taken { OnOk result (state_of state.new ≡ after_turn g.now.core (state_of state.old) (turn_of drawn.turn) drawn.draws) }
    ensures line { OnOk result (to.new.items ≡ to.old.items ++ event_line (event_drawn state.old.made drawn)) }
    ensures same_state { OnErr result (state_of state.new ≡ state_of state.old) }
    ensures same_text { OnErr result (to.new.items ≡ to.old.items) }
{
    let begun = to.len();
    append_expand(drawn.turn, state.made, drawn.count, begun, to)?;
    if let Err(fault) = take_turn(g, state, drawn) {
        to.truncate(begun);
        return Err(fault);
    }
    Ok(())
}
