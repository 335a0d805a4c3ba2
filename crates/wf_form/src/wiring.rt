// The links of productions, by numbers.
ghost use Rattle.std.specs.Prelude.{◌≡◌, ◌<◌, ◌≤◌, ◌⊎◌, [], ◌∷◌, map, length, IfOk, IfErr, OnOk, MatchOption};
ghost use Rattle.wf_model.specs.Lists.{IsIn};
ghost use Rattle.wf_model.specs.Meaning.{position_of};
ghost use Rattle.wf_spec.specs.Naming.{names_of, place_of};
ghost use Rattle.wf_form.specs.Forming.{placed};
ghost use Rattle.wf_spec.specs.FewPorts.{HaveFewPorts};
ghost use Rattle.wf_form.specs.Rules.{HasKnownModules, HasKnownPorts};
ghost use Rattle.wf_spec.specs.FirstFaults.{HoldsThroughout, IsFirstFault, each};
ghost use Rattle.wf_form.specs.Wiring.{IsWiringOf, AreWiringsOf};
ghost use Rattle.wf_form.specs.declared.fault.FormFault.TheVariants.{NoMemory, UnknownPort};
ghost use Rattle.wf_form.specs.declared.fault.Spot.TheVariants.{Production as AtProduction};

use crate::fault::{FormFault, Spot};
use crate::links::numbers::{edge_numbers, entry_numbers, exit_numbers};
use std::alloc::{AllocError, Global};
use wf_model::{Edge, Inner, ModNo, Name, PortNo, PosPart, Position, ProdPart};
use wf_names::Names;
use wf_spec::Module;

/// A link from an input of the head to an input of a position.
#[derive(Clone, Copy, Drop)]
pub struct Entry {
    pub port: PortNo,
    pub to: Inner,
}

/// A link from an output of a position to an output of the head.
#[derive(Clone, Copy, Drop)]
pub struct Exit {
    pub from: Inner,
    pub port: PortNo,
}

/// The links of a production by numbers, in the order of its part.
#[derive(Drop)]
pub struct Wiring {
    pub head: ModNo,
    pub positions: Vec<Position>,
    pub edges: Vec<Edge>,
    pub entries: Vec<Entry>,
    pub exits: Vec<Exit>,
}

/// The number of a module that is one of these.
pub fn module_number(names: &Names, name: &[u8]) -> ModNo
    requires few { length names.now ≤ 1024 }
    requires known { IsIn name.now names.now }
    ensures place { result.0 ≡ place_of names.now name.now }
    ensures within { result.0 < length names.now }
{
    ModNo(names.find(name).unwrap() as u16)
}

/// The positions of a body.
fn positions_from(
    alloc: Global,
    names: &Names,
    parts: &[PosPart],
) -> Result<Vec<Position>, AllocError>
    requires few { length names.now ≤ 1024 }
    requires known { (q : PosPart) → IsIn q parts.now → IsIn q.module names.now }
    ensures positions { IfOk result (λ qs. map position_of qs.items ≡ map (placed names.now) parts.now) }
    ensures known { IfOk result (λ qs. (q : Position) → IsIn q qs.items → q.module.0 < length names.now) }
{
    let mut list = Vec::new(alloc);
    for part in parts {
        let number = module_number(names, part.module.bytes());
        let name = Name::copied(alloc, part.name.bytes())?;
        list.push(Position {
            name,
            module: number,
        })?;
    }
    Ok(list)
}

/// The links of a production, or nothing where one of them names a position or a port that is not there.
fn wiring_from(
    alloc: Global,
    names: &Names,
    modules: &[Module],
    part: &ProdPart,
) -> Result<Option<Wiring>, AllocError>
    requires names { names.now ≡ names_of modules.now }
    requires few_modules { length modules.now ≤ 1024 }
    requires few_ports { HaveFewPorts modules.now }
    requires few_positions { length part.now.body ≤ 64 }
    requires known { HasKnownModules names.now part.now }
    ensures { IfOk result (λ o. MatchOption o (¬ HasKnownPorts modules.now part.now)
        (λ w. HasKnownPorts modules.now part.now × IsWiringOf modules.now part.now w)) }
{
    let head = module_number(names, part.head.bytes());
    let positions = positions_from(alloc, names, part.body.items())?;
    let one = &modules[head.0 as usize];
    let body = positions.as_slice();
    let Some(edges) = edge_numbers(alloc, modules, body, part.edges.items())? else {
        return Ok(None);
    };
    let Some(entries) = entry_numbers(alloc, modules, body, one, part.entries.items())? else {
        return Ok(None);
    };
    let Some(exits) = exit_numbers(alloc, modules, body, one, part.exits.items())? else {
        return Ok(None);
    };
    Ok(Some(Wiring {
        head,
        positions,
        edges,
        entries,
        exits,
    }))
}

/// The links of each production, or the first production of which one names a position or a port that is not there.
///
/// Cost: for each link a look at no more than 64 positions and 64 ports.
pub fn wirings_from(
    alloc: Global,
    names: &Names,
    modules: &[Module],
    parts: &[ProdPart],
) -> Result<Vec<Wiring>, FormFault>
    requires names { names.now ≡ names_of modules.now }
    requires few_modules { length modules.now ≤ 1024 }
    requires few_ports { HaveFewPorts modules.now }
    requires few_positions { (p : ProdPart) → IsIn p parts.now → length p.body ≤ 64 }
    requires known { (p : ProdPart) → IsIn p parts.now → HasKnownModules names.now p }
    ensures kept { OnOk result (HoldsThroughout (each parts.now (HasKnownPorts modules.now) (λ k. UnknownPort (AtProduction k)))) }
    ensures wirings { IfOk result (λ ws. AreWiringsOf modules.now parts.now ws.items) }
    ensures refused { IfErr result (λ f. (f ≡ NoMemory) ⊎
        IsFirstFault (each parts.now (HasKnownPorts modules.now) (λ k. UnknownPort (AtProduction k)) ∷ []) f) }
{
    let mut list = Vec::new(alloc);
    for (k, part) in parts.iter().enumerate() {
        let Some(wiring) = wiring_from(alloc, names, modules, part)? else {
            return Err(FormFault::UnknownPort {
                at: Spot::Production(k as u64),
            });
        };
        list.push(wiring)?;
    }
    Ok(list)
}
