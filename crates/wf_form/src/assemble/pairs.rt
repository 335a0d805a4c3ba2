// Pairs of modules, by numbers.
ghost use Rattle.std.specs.Prelude.{◌≡◌, ◌≤◌, IfOk, length, map};
ghost use Rattle.wf_model.specs.Lists.{IsIn};
ghost use Rattle.wf_form.specs.Forming.{given_in};
ghost use Rattle.wf_spec.specs.Naming.{names_of, place_of};
ghost use Rattle.wf_spec.specs.FewPorts.{HasFewPorts, HaveFewPorts};
ghost use Rattle.wf_spec.specs.Pairs.{pair_in, HasKnownPairs};
ghost use Rattle.wf_spec.specs.GivenRows.{pair_of};

use crate::links::places::port_number;
use crate::wiring::module_number;
use std::alloc::{AllocError, Global};
use wf_model::{DepsPart, Name, PairPart, PortNo};
use wf_names::Names;
use wf_spec::{Given, Module, Pair};

/// The number of a port that is one of these.
fn known_port(ports: &[Name], name: &[u8]) -> PortNo
    requires few { length ports.now ≤ 64 }
    requires known { IsIn name.now ports.now }
    ensures { result.0 ≡ place_of ports.now name.now }
{
    port_number(ports, name).unwrap()
}

fn pair_from(m: &Module, part: &PairPart) -> Pair
    requires few_ports { HasFewPorts m.now }
    requires input { IsIn part.now.input m.now.inputs }
    requires output { IsIn part.now.output m.now.outputs }
    ensures { pair_of result ≡ pair_in m.now part.now }
{
    Pair {
        input: known_port(m.inputs(), part.input.bytes()),
        output: known_port(m.outputs(), part.output.bytes()),
    }
}

fn pairs_from(alloc: Global, m: &Module, parts: &[PairPart]) -> Result<Vec<Pair>, AllocError>
    requires few_ports { HasFewPorts m.now }
    requires known { (e : PairPart) → IsIn e parts.now → IsIn e.input m.now.inputs × IsIn e.output m.now.outputs }
    ensures { IfOk result (λ pairs. map pair_of pairs.items ≡ map (pair_in m.now) parts.now) }
{
    let mut pairs = Vec::new(alloc);
    for part in parts {
        pairs.push(pair_from(m, part))?;
    }
    Ok(pairs)
}

fn part_from(
    alloc: Global,
    names: &Names,
    modules: &[Module],
    part: &DepsPart,
) -> Result<Given, AllocError>
    requires names { names.now ≡ names_of modules.now }
    requires few_modules { length modules.now ≤ 1024 }
    requires few_ports { HaveFewPorts modules.now }
    requires known { IsIn part.now.«module» names.now }
    requires pairs { HasKnownPairs modules.now part.now }
    ensures { IfOk result (λ d. d ≡ given_in modules.now part.now) }
{
    let number = module_number(names, part.module.bytes());
    let pairs = pairs_from(alloc, &modules[number.0 as usize], part.pairs.items())?;
    Ok(Given::new(number, pairs))
}

/// The pairs that parts give to modules.
///
/// Cost: for each part a look-up by hashing, and for each pair a look at no more than 64 inputs and 64 outputs.
pub fn given_from(
    alloc: Global,
    names: &Names,
    modules: &[Module],
    parts: &[DepsPart],
) -> Result<Vec<Given>, AllocError>
    requires names { names.now ≡ names_of modules.now }
    requires few_modules { length modules.now ≤ 1024 }
    requires few_ports { HaveFewPorts modules.now }
    requires known { (d : DepsPart) → IsIn d parts.now → IsIn d.«module» names.now }
    requires pairs { (d : DepsPart) → IsIn d parts.now → HasKnownPairs modules.now d }
    ensures { IfOk result (λ ds. ds.items ≡ map (given_in modules.now) parts.now) }
{
    let mut list = Vec::new(alloc);
    for part in parts {
        let given = part_from(alloc, names, modules, part)?;
        list.push(given)?;
    }
    Ok(list)
}
