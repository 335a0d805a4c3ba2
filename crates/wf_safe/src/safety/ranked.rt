// The rows of all seen, expanded modules, in order of rank.
ghost use Rattle.std.specs.Prelude.{◌≤◌, ◌<◌, ◌+◌, ℕ, length, OnOk};
ghost use Rattle.wf_check.specs.Proper.{IsRankingOf};
ghost use Rattle.wf_safe.specs.Inducing.{AreInduced, AreInducedBefore, rank_of};

use crate::safety::induced::induce;
use std::alloc::{AllocError, Global};
use wf_check::Proper;
use wf_spec::{Deps, Grammar, ModNo};
use wf_view::GrammarView;

/// The greatest rank of a module.
fn greatest_rank(g: &Grammar, proper: &Proper) -> u32
    requires { IsRankingOf g.now.core proper.now }
    ensures { (m : ℕ) → m < length g.now.core.modules → rank_of proper.now m ≤ result }
{
    let mut greatest = 0;
    for m in 0..g.modules().len() {
        greatest = greatest.max(proper.rank(ModNo(m as u16)));
    }
    greatest
}

/// Sets the rows of the seen, expanded modules of one rank, where those of lower ranks are set. Fails only for want of memory.
fn induce_rank(
    alloc: Global,
    v: GrammarView<'_>,
    proper: &Proper,
    rank: u32,
    deps: &mut Deps,
) -> Result<(), AllocError>
    requires ranking { IsRankingOf v.grammar.now.core proper.now }
    requires before { AreInducedBefore v.grammar.now.core v.view.now.core proper.now rank 0 deps.old }
    ensures { OnOk result (AreInducedBefore v.entry.grammar.now.core v.entry.view.now.core proper.now (rank + 1) 0 deps.new) }
{
    for m in 0..v.grammar.modules().len() {
        induce(alloc, v, proper, rank, ModNo(m as u16), deps)?;
    }
    Ok(())
}

/// Sets the rows of each seen, expanded module to the pairs that its chosen production induces, where those of the other seen modules are set. Fails only for want of memory.
///
/// Cost: one pass through the chosen body of each seen, expanded module, and one look at each module for each rank.
pub fn induce_all(
    alloc: Global,
    v: GrammarView<'_>,
    proper: &Proper,
    deps: &mut Deps,
) -> Result<(), AllocError>
    requires ranking { IsRankingOf v.grammar.now.core proper.now }
    requires before { AreInducedBefore v.grammar.now.core v.view.now.core proper.now 1 0 deps.old }
    ensures { OnOk result (AreInduced v.entry.grammar.now.core v.entry.view.now.core proper.now deps.new) }
{
    for below in 0..greatest_rank(v.grammar, proper) {
        induce_rank(alloc, v, proper, below + 1, deps)?;
    }
    Ok(())
}
