// The pairs that deps parts name.
ghost use Rattle.std.specs.Prelude.{◌≡◌, ◌&&◌, bytes_eq};
ghost use Rattle.std.specs.List.{list_all, list_any};
ghost use Rattle.wf_model.specs.Grammar.{module_at};
ghost use Rattle.wf_spec.specs.Pairs.{HasKnownPairs};
ghost use Rattle.wf_spec.specs.FirstFaults.{each, IsFirstFailing};
ghost use Rattle.wf_view.specs.Rules.{number_in};
ghost use Rattle.wf_view.specs.declared.fault.ViewFault.TheVariants.{UnknownPort};

use wf_spec::{DepsPart, Grammar, Module, Name, PairPart};

/// Whether a name is one of those of ports.
fn has_port(ports: &[Name], name: &[u8]) -> bool
    ensures { result ≡ list_any (bytes_eq name.now) ports.now }
{
    ports.iter().any(|port| name == port.bytes())
}

/// Whether each pair is of an input and an output of a module.
fn are_pairs_of(one: &Module, pairs: &[PairPart]) -> bool
    ensures { result ≡ list_all (λ e. list_any (bytes_eq e.input) one.now.inputs && list_any (bytes_eq e.output) one.now.outputs) pairs.now }
{
    let inputs = one.inputs();
    let outputs = one.outputs();
    pairs.iter().all(|e| has_port(inputs, e.input.bytes()) && has_port(outputs, e.output.bytes()))
}

/// Whether each pair of a deps part is of an input and an output of its module. What is no module has no ports.
fn has_known_pairs(g: &Grammar, part: &DepsPart) -> bool
    ensures { result ≡ list_all (λ e. list_any (bytes_eq e.input) (module_at g.now.core (number_in g.now.core part.now.«module»)).inputs &&
        list_any (bytes_eq e.output) (module_at g.now.core (number_in g.now.core part.now.«module»)).outputs) part.now.pairs }
{
    let pairs = part.pairs.items();
    match g.find(part.module.bytes()) {
        Some(m) => are_pairs_of(&g.modules()[m.0 as usize], pairs),
        None => pairs.is_empty(),
    }
}

/// The first deps part of which a pair names a port that is not there.
///
/// Cost: for each part one look-up of its module by hashing, and for each pair a look at no more than 64 inputs and 64 outputs.
pub fn first_unknown_pair(g: &Grammar, deps: &[DepsPart]) -> Option<usize>
    ensures { IsFirstFailing (each deps.now (HasKnownPairs g.now.core.modules) UnknownPort) result }
{
    deps.iter().position(|part| !has_known_pairs(g, part))
}
