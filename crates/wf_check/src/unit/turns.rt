// The unit productions along a route.
ghost use Rattle.std.specs.Prelude.{◌≡◌, ℕ, map, IfOk};
ghost use Rattle.wf_graph.specs.Routes.{IsRoute};
ghost use Rattle.wf_check.specs.UnitPaths.{Turns, targets_of, IsFirstTurn, AreFirstTurns};
ghost use Rattle.wf_check.specs.UnitRules.{AreInOrder};

use crate::unit::rule::UnitRule;
use std::alloc::{AllocError, Global};
use wf_spec::ProdNo;

/// The first unit production by which a module becomes another, of which there must be one.
fn first_turn(units: &[UnitRule], from: u32, to: u32) -> ProdNo
    requires order { AreInOrder units.now }
    requires some { (p : ℕ) × Turns units.now p from to }
    ensures { IsFirstTurn units.now from to result.0 }
{
    for u in units {
        if u32::from(u.head.0) == from && u32::from(u.target.0) == to {
            return u.number;
        }
    }
    unreachable!()
}

/// The first unit productions along a route of modules.
///
/// Cost: a pass over the unit productions for each step. Fails only for want of memory.
pub fn first_turns(
    alloc: Global,
    units: &[UnitRule],
    from: u32,
    route: &[u32],
) -> Result<Vec<ProdNo>, AllocError>
    requires order { AreInOrder units.now }
    requires route { (to : ℕ) × IsRoute (targets_of units.now) from route.now to }
    ensures { IfOk result (λ ps. AreFirstTurns units.now from route.now (map (λ p. p.0) ps.items)) }
{
    let mut productions = Vec::new(alloc);
    let mut at = from;
    for to in route {
        productions.push(first_turn(units, at, *to))?;
        at = *to;
    }
    Ok(productions)
}
