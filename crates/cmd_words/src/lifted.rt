// The lifted view of an automaton, and whether it is safe.
ghost use Rattle.std.specs.Prelude.{◌≡◌, ◌⊎◌, ◌<◌, [], None, IfOk, IfErr, codes};
ghost use Rattle.words_model.specs.Laws.{Fits};
ghost use Rattle.words_model.specs.Lifting.{lift};
ghost use Rattle.wf_lift.specs.WitnessText.{lifted_unsafe_text};
ghost use Rattle.wf_message.specs.Endings.{end_of, Refused, NoMemory};
ghost use Rattle.wf_stage.specs.Stages.{Declines, OfWhole};
ghost use Rattle.cmd_words.specs.AutoTold.{RefusesLifted};
ghost use Rattle.cmd_words.specs.LiftedViews.{IsLiftedView};

use crate::auto_input::AUTO;
use std::alloc::Global;
use wf_accept::Accepted;
use wf_automaton::Automaton;
use wf_lift::{add_witness, lift, lift_view};
use wf_message::{Refusal, Stop, empty_text, refused_whole};
use wf_safe::{SafeFault, SafeView, Witness};
use wf_spec::Grammar;

/// The stop at a lifted view that is not safe, whose witness is written into an empty text. The grammar is the one that was lifted, to so many states.
fn unsafe_stop(g: &Grammar, states: u8, witness: &Witness, mut text: Vec<u8>) -> Stop
    requires some { 0 < states }
    requires empty { text.items ≡ [] }
    ensures { (end_of result ≡ NoMemory) ⊎ (end_of result ≡ Refused (codes "auto") None (lifted_unsafe_text g.now.core states witness.now)) }
{
    match add_witness(&mut text, g, states, witness) {
        Ok(()) => refused_whole(AUTO.place, Refusal::Written { text }),
        Err(_) => Stop::NoMemory,
    }
}

/// The grammar of a view, lifted to the states of an automaton. Fails only for want of memory.
pub(crate) fn lifted_grammar(
    alloc: Global,
    v: &SafeView<'_>,
    automaton: &Automaton,
) -> Result<Accepted, Stop>
    requires fits { Fits v.now.accepted.grammar.core automaton.now }
    ensures grammar { IfOk result (λ l. l.grammar.core ≡ lift v.now.accepted.grammar.core automaton.now.states) }
    ensures memory { IfErr result (λ e. end_of e ≡ NoMemory) }
{
    match lift(alloc, v.accepted(), automaton.states()) {
        Ok(lifted) => Ok(lifted),
        Err(_) => Err(Stop::NoMemory),
    }
}

/// The lifted view of a safe view, if it is safe too.
///
/// Refused with its first witness, two expansions of a module that disagree on a port in a state, where it is not. `NoMemory` may come at any time.
///
/// Cost: those of `lift_view` and `SafeView::of`.
pub(crate) fn lifted_view<'l>(
    alloc: Global,
    v: &SafeView<'_>,
    automaton: &Automaton,
    lifted: &'l Accepted,
) -> Result<SafeView<'l>, Stop>
    requires fits { Fits v.now.accepted.grammar.core automaton.now }
    requires lifted { lifted.now.grammar.core ≡ lift v.now.accepted.grammar.core automaton.now.states }
    ensures lifted { IfOk result (IsLiftedView v.now.accepted.grammar.core v.now.view.core automaton.now) }
    ensures declines { IfErr result (λ e.
        Declines (codes "auto") (OfWhole (RefusesLifted v.now.accepted.grammar.core v.now.view.core) automaton.now) (end_of e)) }
{
    let Ok(text) = empty_text(alloc) else {
        return Err(Stop::NoMemory);
    };
    let Ok(view) = lift_view(alloc, v.sight(), automaton, lifted) else {
        return Err(Stop::NoMemory);
    };
    // The ranks by which a witness is found are those of the lifted grammar.
    let _ranks = lifted.grammar();
    match SafeView::of(alloc, lifted, view) {
        Ok(safe) => {
            let _facts = safe.accepted();
            Ok(safe)
        }
        Err(SafeFault::Unsafe { witness }) => {
            Err(unsafe_stop(v.grammar(), automaton.states(), &witness, text))
        }
        Err(SafeFault::NoMemory) => Err(Stop::NoMemory),
    }
}
