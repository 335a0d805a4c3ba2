// SPEC: from bytes to a grammar, with the ranks of its modules and its cycles.
ghost use Rattle.std.specs.Prelude.{◌≡◌, ◌⊎◌, [], None, IfOk, IfErr, codes};
ghost use Rattle.wf_form.specs.Forming.{held_of, HaveVersions, IsFormed};
ghost use Rattle.wf_message.specs.Endings.{end_of, Refused, NoMemory};
ghost use Rattle.wf_message.specs.Refusals.{refusal_text};
ghost use Rattle.wf_stage.specs.Stages.{Declines, OfWhole};
ghost use Rattle.wf_stage.specs.Promises.{Reads};
ghost use Rattle.wf_accept.specs.Accepted.{IsAccepted};
ghost use Rattle.wf_accept.specs.FaultText.{accept_text};
ghost use Rattle.wf_form.specs.FaultText.{form_text};
ghost use Rattle.wf_inputs.specs.Inputs.{spec_kind};
ghost use Rattle.wf_inputs.specs.Specification.{IsSpecText, TellsGrammar, RefusesSpec, RefusesParts, RefusesGrammar};

use crate::faults::{form_refusal, named, shape_refusal};
use crate::kinds::SPEC;
use std::alloc::Global;
use wf_accept::{AcceptFault, Accepted, Unaccepted, accept};
use wf_form::{FormFault, build_with_key};
use wf_io::Shelf;
use wf_json::{JsonFault, read_spec};
use wf_message::{Refusal, Stop, empty_text, refused_whole};
use wf_spec::{Grammar, Parts};
use wf_stage::read_file;

fn refused(refusal: Refusal) -> Stop
    ensures { end_of result ≡ Refused (codes "spec") None (refusal_text refusal) }
{
    refused_whole(SPEC.place, refusal)
}

/// The parts of a specification in JSON.
fn parts_of_bytes(alloc: Global, bytes: &[u8]) -> Result<Parts, Stop>
    ensures ok { IfOk result (λ p. IsSpecText bytes.now p) }
    ensures declines { IfErr result (λ e. Declines (codes "spec") (OfWhole RefusesSpec bytes.now) (end_of e)) }
{
    match read_spec(alloc, bytes) {
        Ok(parts) => Ok(parts),
        Err(JsonFault::NotJson) => Err(refused(named(b"NotJson"))),
        Err(JsonFault::WrongShape { member }) => Err(refused(shape_refusal(member))),
        Err(JsonFault::NoMemory) => Err(Stop::NoMemory),
    }
}

/// The stop at a fault of the parts.
fn form_stop(fault: FormFault) -> Stop
    ensures memory { fault ≡ FormFault.NoMemory → end_of result ≡ NoMemory }
    ensures refused { (fault ≡ FormFault.NoMemory) ⊎ (end_of result ≡ Refused (codes "spec") None (form_text fault)) }
{
    match fault {
        FormFault::NoMemory => Stop::NoMemory,
        _ => refused(form_refusal(fault)),
    }
}

/// The grammar that parts form, whose names are hashed with this key.
fn grammar_of_parts(alloc: Global, key: u64, parts: Parts) -> Result<Grammar, Stop>
    ensures ok { IfOk result (λ g. (g ≡ held_of parts) × IsFormed parts × HaveVersions parts) }
    ensures declines { IfErr result (λ e. Declines (codes "spec") (OfWhole RefusesParts parts) (end_of e)) }
{
    match build_with_key(alloc, key, parts) {
        Ok(g) => Ok(g),
        Err(fault) => Err(form_stop(fault)),
    }
}

/// The stop at a fault of a grammar, whose text is written into an empty one.
fn accept_stop(unaccepted: &Unaccepted, mut text: Vec<u8>) -> Stop
    requires { text.items ≡ [] }
    ensures memory { unaccepted.now.fault ≡ AcceptFault.NoMemory → end_of result ≡ NoMemory }
    ensures refused { (end_of result ≡ NoMemory) ⊎ (end_of result ≡ Refused (codes "spec") None (accept_text unaccepted.now.grammar.core unaccepted.now.fault)) }
{
    if matches!(unaccepted.fault, AcceptFault::NoMemory) {
        return Stop::NoMemory;
    }
    match unaccepted.fault.add_text(&mut text, &unaccepted.grammar) {
        Ok(()) => refused(Refusal::Written { text }),
        Err(_) => Stop::NoMemory,
    }
}

/// A grammar that is proper and strictly linear, and whose versions keep their cycles.
fn accepted(alloc: Global, g: Grammar) -> Result<Accepted, Stop>
    ensures grammar { IfOk result (λ a. a.grammar ≡ g) }
    ensures accepted { IfOk result (λ a. IsAccepted a) }
    ensures declines { IfErr result (λ e. Declines (codes "spec") (OfWhole RefusesGrammar g) (end_of e)) }
{
    let Ok(text) = empty_text(alloc) else {
        return Err(Stop::NoMemory);
    };
    match accept(alloc, g) {
        Ok(accepted) => {
            let _facts = accepted.grammar();
            Ok(accepted)
        }
        Err(unaccepted) => Err(accept_stop(&unaccepted, text)),
    }
}

/// The grammar that a specification tells, with its earlier versions, the ranks of its modules and its cycles.
///
/// Refused with the first that there is of: NotJson; WrongShape; the fault of the parts; the fault of the grammar where it is not proper; TwoLoops where it is not strictly linear; and CycleChanged with the first version that does not keep its cycles. `NoMemory` may come at any time.
///
/// Cost: those of `read_spec`, `build_with_key` and `accept`.
fn spec_of_bytes(alloc: Global, key: u64, bytes: &[u8]) -> Result<Accepted, Stop>
    ensures ok { IfOk result (λ s. TellsGrammar bytes.now s.grammar) }
    ensures declines { IfErr result (λ e. Declines (codes "spec") (OfWhole RefusesSpec bytes.now) (end_of e)) }
{
    let parts = parts_of_bytes(alloc, bytes)?;
    let g = grammar_of_parts(alloc, key, parts)?;
    accepted(alloc, g)
}

/// The grammar of SPEC.
pub fn spec_stage<H: Shelf>(alloc: Global, shelf: &mut H, name: &str) -> Result<Accepted, Stop>
    ensures reads { Reads H.files H.readings H.faults H.at_last spec_kind name.now TellsGrammar (λ s. s.grammar) (OfWhole RefusesSpec) shelf.old shelf.new result }
{
    let bytes = read_file(alloc, shelf, name, SPEC)?;
    let key = shelf.hash_key();
    spec_of_bytes(alloc, key, &bytes)
}
