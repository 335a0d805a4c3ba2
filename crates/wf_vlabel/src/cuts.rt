// Where chains leave what a view expands.
ghost use Rattle.std.specs.Prelude.{◌≡◌, ◌<◌, length, IfOk, IfSome, None};
ghost use Rattle.wf_model.specs.View.{expands};
ghost use Rattle.label_model.specs.Continuing.{continuing};
ghost use Rattle.wf_recur.specs.Cycles.{round_at};
ghost use Rattle.wf_vlabel.specs.Cuts.{cut_before};
ghost use Rattle.wf_vlabel.specs.CycleMatrices.{KeepsCuts, AreCutsOn, AreCutsOf};

use crate::sight::Sight;
use std::alloc::{AllocError, Global};
use wf_recur::{CycleNo, Linear};
use wf_spec::ModNo;
use wf_view::View;

/// How many continuing steps lead from a module to the first that is not expanded, from what this is for the next module.
fn one_before(view: &View, m: ModNo, next: Option<u32>) -> Option<u32>
    requires few { IfSome next (λ n. n < 4096) }
    ensures { result ≡ cut_before (expands view.now.core m.0) next }
{
    if !view.expanded(m) {
        return Some(0);
    }
    match next {
        Some(n) => Some(n + 1),
        None => None,
    }
}

/// Tells where chains from the modules of a cycle leave what the view expands. What was right of other modules stays right.
///
/// It goes backwards twice: once to find what holds at place 0, and once more to tell it at each place.
fn cut_cycle(g: Linear<'_>, view: &View, c: CycleNo, cuts: &mut [Option<u32>])
    requires cycle { c.0 < length g.cycles.now.rounds }
    requires count { length cuts.old ≡ length g.grammar.now.core.modules }
    ensures count { length cuts.new ≡ length cuts.old }
    ensures kept { KeepsCuts g.entry.grammar.now.core view.now.core cuts.old cuts.new }
    ensures told { AreCutsOn g.entry.grammar.now.core view.now.core (round_at g.entry.cycles.now c.0) cuts.new }
{
    let _modules = g.grammar.modules();
    let length = g.cycles.length(c);
    let mut next = None;
    let mut ahead = length;
    while ahead > 0 {
        ahead -= 1;
        next = one_before(view, g.cycles.at(c, ahead), next);
    }
    let mut place = length;
    while place > 0 {
        place -= 1;
        let m = g.cycles.at(c, place);
        next = one_before(view, m, next);
        cuts[m.0 as usize] = next;
    }
}

/// For each module on a cycle, how many continuing steps lead from it to the first module that is not expanded; none where the whole cycle is expanded.
///
/// Cost: two looks at each module of a cycle. Fails only for want of memory.
pub(crate) fn cuts_of(alloc: Global, s: Sight<'_, '_>) -> Result<Vec<Option<u32>>, AllocError>
    ensures count { IfOk result (λ cuts. length cuts.items ≡ length s.entry.linear.grammar.now.core.modules) }
    ensures cuts { IfOk result (λ cuts. AreCutsOf s.entry.linear.grammar.now.core s.entry.view.now.core cuts.items) }
{
    let mut cuts = vec![in alloc; None; s.linear.grammar.modules().len()]?;
    for c in 0..s.linear.cycles.count() {
        cut_cycle(s.linear, s.view, CycleNo(c), &mut cuts);
    }
    Ok(cuts)
}
