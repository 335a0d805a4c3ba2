// What a view shows of the cycles of a grammar.
ghost use Rattle.std.specs.Prelude.{◌≡◌, length, IfOk};
ghost use Rattle.wf_model.specs.Meaning.{pairs_of};
ghost use Rattle.wf_model.specs.View.{expands};
ghost use Rattle.wf_safe.specs.Full.{AreFullRows};
ghost use Rattle.wf_vlabel.specs.CycleMatrices.{AreCutsOf};
ghost use Rattle.wf_vlabel.specs.Stills.{AreStills};
ghost use Rattle.wf_vlabel.specs.Tables.{AreBodyGroups, AreSquareGroups};

use crate::cuts::cuts_of;
use crate::groups::Groups;
use crate::rounds::square_groups;
use crate::rounds::stills::{Stills, stills_of};
use crate::sight::Sight;
use std::alloc::{AllocError, Global};
use wf_safe::FullDeps;

/// For each module of a cycle where the view cuts the chain that begins with it, the matrices of many rounds of the cycle, and the first of these that are their own squares.
#[derive(Drop)]
pub(crate) struct CycleTables {
    pub(crate) cuts: Vec<Option<u32>>,
    pub(crate) squares: Groups,
    pub(crate) stills: Vec<Stills>,
}

/// The tables of the cycles of a grammar under a view. Fails only for want of memory.
///
/// Cost: those of `cuts_of`, `square_groups` and `stills_of`.
pub(crate) fn cycle_tables(
    alloc: Global,
    s: Sight<'_, '_>,
    full: &FullDeps,
    bodies: &Groups,
) -> Result<CycleTables, AllocError>
    requires rows { AreFullRows s.linear.grammar.now.core s.view.now.core full.now }
    requires bodies { AreBodyGroups s.linear.grammar.now.core (expands s.view.now.core) (pairs_of full.now) bodies.now }
    ensures count { IfOk result (λ t. length t.cuts.items ≡ length s.entry.linear.grammar.now.core.modules) }
    ensures cuts { IfOk result (λ t. AreCutsOf s.entry.linear.grammar.now.core s.entry.view.now.core t.cuts.items) }
    ensures squares { IfOk result (λ t. AreSquareGroups s.entry.linear.grammar.now.core (expands s.entry.view.now.core) (pairs_of full.now) t.squares) }
    ensures stills { IfOk result (λ t. AreStills t.squares t.stills.items) }
{
    let cuts = cuts_of(alloc, s)?;
    let squares = square_groups(alloc, s, full, cuts.as_slice(), bodies)?;
    match stills_of(alloc, &squares) {
        Ok(stills) => Ok(CycleTables {
            cuts,
            squares,
            stills,
        }),
        Err(wanting) => Err(wanting),
    }
}
