// AUTO, from its bytes to an automaton over the modules of a grammar.
ghost use Rattle.std.specs.Prelude.{◌≡◌, ◌⊎◌, ◌++◌, Some, None, IfOk, IfErr, codes};
ghost use Rattle.words_model.specs.Laws.{Fits};
ghost use Rattle.wf_automaton.specs.FaultText.{auto_text, behind_auto_spot};
ghost use Rattle.wf_automaton.specs.Rules.{TellsAutomaton};
ghost use Rattle.wf_message.specs.Endings.{end_of, Refused, NoMemory};
ghost use Rattle.wf_message.specs.Refusals.{refusal_text};
ghost use Rattle.wf_stage.specs.Stages.{Declines, OfWhole};
ghost use Rattle.cmd_words.specs.AutoTold.{RefusesAutomaton};

use std::alloc::Global;
use wf_automaton::{AutoFault, AutoSpot, Automaton};
use wf_inputs::named;
use wf_message::{Place, Refusal, Stop, refused_whole};
use wf_spec::Grammar;
use wf_stage::FileKind;

/// An automaton.
pub(crate) const AUTO: FileKind = FileKind {
    place: Place { word: b"auto" },
    most: 16777216,
    too_long: b"TooLong",
};

/// The refusal that names a fault, and the member or the move that it is about.
fn at_auto_spot(name: &'static [u8], at: AutoSpot) -> Refusal
    ensures { refusal_text result ≡ name.now ++ behind_auto_spot (Some at) }
{
    match at {
        AutoSpot::InMember(member) => Refusal::Worded {
            name,
            word: member.word(),
        },
        AutoSpot::MoveAt(number) => Refusal::Numbered {
            name,
            part: b"move",
            number,
        },
    }
}

/// The refusal of an automaton.
fn auto_refusal(fault: AutoFault) -> Refusal
    ensures { refusal_text result ≡ auto_text fault }
{
    match fault.spot() {
        Some(at) => at_auto_spot(fault.name(), at),
        None => named(fault.name()),
    }
}

/// The stop at a fault of an automaton.
fn auto_stop(fault: AutoFault) -> Stop
    ensures memory { fault ≡ AutoFault.NoMemory → end_of result ≡ NoMemory }
    ensures refused { (fault ≡ AutoFault.NoMemory) ⊎ (end_of result ≡ Refused (codes "auto") None (auto_text fault)) }
{
    match fault {
        AutoFault::NoMemory => Stop::NoMemory,
        _ => refused_whole(AUTO.place, auto_refusal(fault)),
    }
}

/// The automaton over the modules of a grammar that bytes describe.
///
/// Refused with the fault of the first rule that they break, as `Automaton::build` tries them. `NoMemory` may come at any time.
pub(crate) fn automaton_of(alloc: Global, g: &Grammar, bytes: &[u8]) -> Result<Automaton, Stop>
    ensures tells { IfOk result (TellsAutomaton g.now.core bytes.now) }
    ensures fits { IfOk result (Fits g.now.core) }
    ensures declines { IfErr result (λ e. Declines (codes "auto") (OfWhole (RefusesAutomaton g.now.core) bytes.now) (end_of e)) }
{
    match Automaton::build(alloc, g, bytes) {
        Ok(automaton) => Ok(automaton),
        Err(fault) => Err(auto_stop(fault)),
    }
}
