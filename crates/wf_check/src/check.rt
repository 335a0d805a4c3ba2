// Whether a grammar is proper.
ghost use Rattle.std.specs.Prelude.{◌≡◌, ◌⊎◌, IfOk, IfErr, map, unwrap_or};
ghost use Rattle.wf_model.specs.Proper.{IsProper};
ghost use Rattle.wf_check.specs.Proper.{IsRankingOf};
ghost use Rattle.wf_check.specs.Improper.{IsFaultOf, IsProductive, OfAllComposite};
ghost use Rattle.wf_check.specs.Ranks.{AreRanks};
ghost use Rattle.wf_check.specs.declared.fault.CheckFault.TheVariants.{NoMemory};

use crate::choices::choices;
use crate::fault::CheckFault;
use crate::ranking::Proper;
use crate::ranks::{ranks, unproductive};
use crate::reach::unreached;
use crate::unit::unit_cycle;
use std::alloc::{AllocError, Global};
use wf_spec::Grammar;

fn numbers(alloc: Global, ranks: &[Option<u32>]) -> Result<Vec<u32>, AllocError>
    ensures { IfOk result (λ list. list.items ≡ map (λ o. unwrap_or o 0) ranks.now) }
{
    ranks.iter().map(|rank| rank.unwrap_or(0)).collect(alloc)
}

/// The tables of a grammar whose modules all have ranks.
fn ranking(alloc: Global, g: &Grammar, ranks: &[Option<u32>]) -> Result<Proper, AllocError>
    requires ranks { AreRanks g.now.core ranks.now }
    requires productive { OfAllComposite g.now.core (IsProductive g.now.core) }
    ensures { IfOk result (λ p. IsRankingOf g.now.core p) }
{
    let choices = choices(alloc, g, ranks)?;
    let numbers = numbers(alloc, ranks)?;
    Ok(Proper::of_tables(numbers, choices))
}

/// Whether a grammar is proper, with the ranks of its modules, or with evidence that it is not.
///
/// Errors: `Unreachable`, `Unproductive`, `UnitCycle`, the first of these that there is; `NoMemory` may come at any time.
///
/// Cost: as `ranks` and `unit_cycle`.
pub fn proper(alloc: Global, g: &Grammar) -> Result<Proper, CheckFault>
    ensures proper { IfOk result (λ p. IsProper g.now.core × IsRankingOf g.now.core p) }
    ensures refused { IfErr result (λ f. (f ≡ NoMemory) ⊎ IsFaultOf g.now.core f) }
{
    if let Some(module) = unreached(alloc, g)? {
        return Err(CheckFault::Unreachable { module });
    }
    let ranks = ranks(alloc, g)?;
    if let Some(module) = unproductive(alloc, g, &ranks)? {
        return Err(CheckFault::Unproductive { module });
    }
    if let Some(productions) = unit_cycle(alloc, g)? {
        return Err(CheckFault::UnitCycle { productions });
    }
    Ok(ranking(alloc, g, &ranks)?)
}
