// Lifted productions.
ghost use Rattle.std.specs.Prelude.{◌≡◌, IfOk, map};
ghost use Rattle.wf_model.specs.Lists.{IsIn};
ghost use Rattle.wf_model.specs.Meaning.{position_of};
ghost use Rattle.wf_model.specs.Grammar.{Production as SeenProduction};
ghost use Rattle.words_model.specs.Lifting.{lift_production};
ghost use Rattle.wf_lift.specs.Room.{HasRoomIn};

use crate::ends::{lift_edges, lift_inners};
use std::alloc::{AllocError, Global};
use wf_spec::{Name, Position, Production, Rule, Seq};

/// The positions of a body, copied.
fn copied_positions(alloc: Global, positions: &[Position]) -> Result<Vec<Position>, AllocError>
    ensures { IfOk result (λ list. map position_of list.items ≡ map position_of positions.now) }
{
    let mut list = Vec::new(alloc);
    for one in positions {
        let name = Name::copied(alloc, one.name.bytes())?;
        list.push(Position {
            name,
            module: one.module,
        })?;
    }
    Ok(list)
}

/// A production whose edges, entries and exits stand in each state.
fn lift_rule(alloc: Global, one: &Production, states: u8) -> Result<Rule, AllocError>
    requires { HasRoomIn states one.now.core }
    ensures { IfOk result (λ r. r ≡ lift_production states one.now.core) }
{
    let positions = copied_positions(alloc, one.positions())?;
    let edges = lift_edges(alloc, one.edges(), states)?;
    let entries = lift_inners(alloc, one.entries(), states)?;
    let exits = lift_inners(alloc, one.exits(), states)?;
    Ok(Rule::new(
        one.head(),
        Seq::from_vec(positions),
        Seq::from_vec(edges),
        Seq::from_vec(entries),
        Seq::from_vec(exits),
    ))
}

/// Productions whose edges, entries and exits stand in each state.
pub fn lift_rules(
    alloc: Global,
    productions: &[Production],
    states: u8,
) -> Result<Vec<Rule>, AllocError>
    requires { (r : SeenProduction) → IsIn r (map (λ p. p.core) productions.now) → HasRoomIn states r }
    ensures { IfOk result (λ list. list.items ≡ map (lift_production states) (map (λ p. p.core) productions.now)) }
{
    let mut list = Vec::new(alloc);
    for one in productions {
        let lifted = lift_rule(alloc, one, states)?;
        list.push(lifted)?;
    }
    Ok(list)
}
