// The productions of a package.
ghost use Rattle.std.specs.Prelude.{◌≡◌, ◌<◌, ◌≤◌, ℕ, get_or, length, map, IfOk};
ghost use Rattle.wf_model.specs.Lists.{IsIn};
ghost use Rattle.wf_model.specs.Meaning.{position_of};
ghost use Rattle.wf_model.specs.declared.body.Position.{Position as PositionHeld};
ghost use Rattle.package_model.specs.Packages.{package_positions};
ghost use Rattle.wf_package.specs.Parts.{production_part};

use crate::names::numbered;
use std::alloc::{AllocError, Global};
use wf_spec::{Grammar, ModNo, Position, ProdNo, Rule, Seq};

/// The positions of a body, named by their numbers, with the places of their modules.
fn placed_positions(
    alloc: Global,
    positions: &[Position],
    places: &[u16],
) -> Result<Vec<Position>, AllocError>
    requires in_range { (q : PositionHeld) → IsIn q positions.now → q.module.0 < length places.now }
    requires few { length positions.now ≤ 64 }
    ensures { IfOk result (λ ps. map position_of ps.items ≡ package_positions 0 (map (λ q. get_or places.now q.module.0 0) positions.now)) }
{
    let mut list = Vec::with_capacity(alloc, positions.len())?;
    for k in 0..positions.len() {
        let name = numbered(alloc, b'p', k as u16)?;
        let module = ModNo(places[positions[k].module.0 as usize]);
        list.push(Position { name, module })?;
    }
    Ok(list)
}

/// The production of a package for a production of the grammar, with the places of the modules.
fn placed_production(
    alloc: Global,
    g: &Grammar,
    places: &[u16],
    p: ProdNo,
) -> Result<Rule, AllocError>
    requires in_range { p.0 < length g.now.core.productions }
    requires one_each { length places.now ≡ length g.now.core.modules }
    ensures { IfOk result (λ r. r ≡ production_part g.now.core (λ m. get_or places.now m 0) p.0) }
{
    let production = g.production(p);
    let head = ModNo(places[production.head().0 as usize]);
    let positions = placed_positions(alloc, production.positions(), places)?;
    let edges = Vec::from_slice(alloc, production.edges())?;
    let entries = Vec::from_slice(alloc, production.entries())?;
    let exits = Vec::from_slice(alloc, production.exits())?;
    Ok(Rule::new(
        head,
        Seq::from_vec(positions),
        Seq::from_vec(edges),
        Seq::from_vec(entries),
        Seq::from_vec(exits),
    ))
}

/// The productions of a package, in order of these of the grammar. Fails only for want of memory.
pub(crate) fn placed_productions(
    alloc: Global,
    g: &Grammar,
    places: &[u16],
    numbers: &[u16],
) -> Result<Vec<Rule>, AllocError>
    requires in_range { (p : ℕ) → IsIn p numbers.now → p < length g.now.core.productions }
    requires one_each { length places.now ≡ length g.now.core.modules }
    ensures { IfOk result (λ list. list.items ≡ map (production_part g.now.core (λ m. get_or places.now m 0)) numbers.now) }
{
    let mut list = Vec::with_capacity(alloc, numbers.len())?;
    for p in numbers {
        let rule = placed_production(alloc, g, places, ProdNo(*p))?;
        list.push(rule)?;
    }
    Ok(list)
}
